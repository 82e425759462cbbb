// The fields of an A line.
ghost use Rattle.std.specs.Prelude.{◌≡◌};
ghost use Rattle.format.specs.Entries.{field, spelled, size as size_key, flags as flags_key, addr as addr_key};
ghost use Rattle.numbers.specs.Told.{told};

use crate::parts::field_at;
use crate::usual::{usual_flags, usual_four};
use numbers::Parsed;

// ` size N`. The usual form is read at once.
pub fn size_field(t: &[u8], at: usize, radix: u8) -> Parsed<u32>
    ensures { told result ≡ field (spelled size_key) radix t.now at }
{
    if usual_four(t, at, b's', b'i', b'z', b'e') {
        return quick_numbers::parse_number(t, at + 6, radix);
    }
    field_at(t, at, b"size", radix)
}

// ` flags N`, likewise.
pub fn flags_field(t: &[u8], at: usize, radix: u8) -> Parsed<u32>
    ensures { told result ≡ field (spelled flags_key) radix t.now at }
{
    if usual_flags(t, at) {
        return quick_numbers::parse_number(t, at + 7, radix);
    }
    field_at(t, at, b"flags", radix)
}

// ` addr N`, likewise.
pub fn addr_field(t: &[u8], at: usize, radix: u8) -> Parsed<u32>
    ensures { told result ≡ field (spelled addr_key) radix t.now at }
{
    if usual_four(t, at, b'a', b'd', b'd', b'r') {
        return quick_numbers::parse_number(t, at + 6, radix);
    }
    field_at(t, at, b"addr", radix)
}
