// The A line: `A name size N flags N`, and perhaps ` addr N`.
ghost use Rattle.std.specs.Prelude.{◌≡◌};
ghost use Rattle.format.specs.Got.{is, optional};
ghost use Rattle.format.specs.Entries.{field, spelled, addr as addr_key, area_of, area_line};
ghost use Rattle.header.specs.Told.{form_of};
ghost use Rattle.entry_line.specs.Told.{name_of, addr_of, told_entry};

use crate::Entry;
use entry_parts::{Name, addr_field, flags_field, size_field, title};
use header::Form;
use numbers::{Parsed, Read};
use scan::Kind;

// ` addr N` where it can be read; else no byte is used.
fn addr_at(t: &[u8], at: usize, radix: u8) -> Read<Option<u32>>
    ensures { is (addr_of result.value) result.next ≡ optional (field (spelled addr_key) radix) t.now at }
{
    match addr_field(t, at, radix) {
        Ok(addr) => Read {
            value: Some(addr.value),
            next: addr.next,
        },
        Err(_) => Read {
            value: None,
            next: at,
        },
    }
}

// ` size N flags N`, and perhaps ` addr N`.
fn area_of(t: &[u8], at: usize, form: Form, name: Name) -> Parsed<Entry>
    ensures { told_entry result ≡ area_of (form_of form) (name_of name.at name.len) t.now at }
{
    let size = size_field(t, at, form.radix)?;
    let flags = flags_field(t, size.next, form.radix)?;
    let addr = addr_at(t, flags.next, form.radix);
    Ok(Read {
        value: Entry::Area {
            name: name.at,
            len: name.len,
            size: size.value,
            flags: flags.value,
            addr: addr.value,
        },
        next: scan::past_kind(t, addr.next, Kind::Blank),
    })
}

// `A name size N flags N`, and perhaps ` addr N`; blanks may trail.
pub fn parse_area(t: &[u8], form: Form) -> Parsed<Entry>
    ensures { told_entry result ≡ area_line (form_of form) t.now 0 }
{
    let name = title(t, b"A")?;
    area_of(t, name.next, form, name.value)
}
