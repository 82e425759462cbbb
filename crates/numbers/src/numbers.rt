// Numbers of a radix below 2^32, and bytes below 256, of any length.
ghost use Rattle.std.specs.Prelude.{◌≡◌, ◌+◌, ◌*◌, ◌<◌, ◌≤◌, min};
ghost use Rattle.format.specs.Number.{valued, number, byte, next_byte};
ghost use Rattle.numbers.specs.Told.{told};

use crate::{Halt, Parsed, Read, Reason};
use scan::Kind;

// A value with one digit more, held at 2^32.
fn with_digit(v: u64, radix: u64, d: u64) -> u64
    requires { (v ≤ 4294967296) × (radix < 256) × (d < radix) }
    ensures { result ≡ min 4294967296 (v * radix + d) }
{
    let w = v * radix + d;
    if w < 4294967296 {
        return w;
    }
    4294967296
}

// The number whose digits, from a place to a place, are worth v.
fn number_from(at: usize, next: usize, v: u64) -> Parsed<u32>
    ensures { told result ≡ valued at next v }
{
    if next == at {
        return Err(Halt {
            reason: Reason::NoDigit,
            at,
        });
    }
    if v < 4294967296 {
        return Ok(Read {
            value: v as u32,
            next,
        });
    }
    Err(Halt {
        reason: Reason::OverWord,
        at,
    })
}

// The longest run of digits, as a number below 2^32.
pub fn any_number(t: &[u8], at: usize, radix: u8) -> Parsed<u32>
    ensures { told result ≡ number radix t.now at }
{
    if t.len() <= at {
        return Err(Halt {
            reason: Reason::NoDigit,
            at,
        });
    }
    let base = radix as u64;
    let mut v: u64 = 0;
    for i in at..t.len() {
        let d = digits::worth_of(t[i]);
        if base <= d {
            return number_from(at, i, v);
        }
        v = with_digit(v, base, d);
    }
    number_from(at, t.len(), v)
}

// A number below 256, of any length.
pub fn any_byte(t: &[u8], at: usize, radix: u8) -> Parsed<u32>
    ensures { told result ≡ byte radix t.now at }
{
    let n = any_number(t, at, radix)?;
    if n.value < 256 {
        return Ok(n);
    }
    Err(Halt {
        reason: Reason::OverByte,
        at,
    })
}

// Any number of blanks, at least one, and a byte of any length.
pub fn any_next(t: &[u8], at: usize, radix: u8) -> Parsed<u32>
    ensures { told result ≡ next_byte radix t.now at }
{
    let a = scan::past_kind(t, at, Kind::Blank);
    if a == at {
        return Err(Halt {
            reason: Reason::Other,
            at,
        });
    }
    any_byte(t, a, radix)
}
