// Numbers of a radix, and bytes, the usual forms of which are read at once.
// What else may stand there is left to the readers of any length, those of `numbers`.
#![tactic(auto)]

ghost use Rattle.std.specs.Prelude.{◌≡◌};
ghost use Rattle.format.specs.Number.{number, byte, next_byte};
ghost use Rattle.numbers.specs.Told.{told};
ghost use Rattle.quick_numbers.specs.Short.{Zero};

use crate::short::{short_byte, spaced_byte};
use numbers::{Parsed, Read};

mod short;

// Whether a 0 of radix 16 stands alone, as most numbers of A lines do.
fn lone_zero(t: &[u8], at: usize, radix: u8) -> bool
    ensures { Zero radix t.now at result }
{
    if radix != 16 {
        return false;
    }
    if t.len() <= at {
        return false;
    }
    if t[at] != 48 {
        return false;
    }
    scan::byte_at(t, at + 1) < 48
}

// The longest run of digits, as a number below 2^32. A 0 that stands alone is read at once.
pub fn parse_number(t: &[u8], at: usize, radix: u8) -> Parsed<u32>
    ensures { told result ≡ number radix t.now at }
{
    if lone_zero(t, at, radix) {
        return Ok(Read {
            value: 0,
            next: at + 1,
        });
    }
    numbers::any_number(t, at, radix)
}

// A number below 256. Two digits are read at once.
pub fn parse_byte(t: &[u8], at: usize, radix: u8) -> Parsed<u32>
    ensures { told result ≡ byte radix t.now at }
{
    let v = short_byte(t, at, radix);
    if v < 256 {
        return Ok(Read {
            value: v as u32,
            next: at + 2,
        });
    }
    numbers::any_byte(t, at, radix)
}

// One or more blanks, and a byte. One space and two digits are read at once.
pub fn next_byte(t: &[u8], at: usize, radix: u8) -> Parsed<u32>
    ensures { told result ≡ next_byte radix t.now at }
{
    let v = spaced_byte(t, at, radix);
    if v < 256 {
        return Ok(Read {
            value: v as u32,
            next: at + 3,
        });
    }
    numbers::any_next(t, at, radix)
}
