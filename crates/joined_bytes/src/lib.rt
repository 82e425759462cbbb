// Two, three or four bytes, separated by blanks, as one number, in both orders.
#![tactic(auto)]

ghost use Rattle.std.specs.Prelude.{◌≡◌, ◌*◌, ◌<◌, ◌≤◌, ◌^◌};
ghost use Rattle.format.specs.Number.{joined as joined_at};
ghost use Rattle.numbers.specs.Told.{told};
ghost use Rattle.joined_bytes.specs.Steps.{join_step};

use crate::short::{short_three, short_two};
use numbers::{Parsed, Read};

mod short;

// A byte moved up by one, two or three whole bytes.
fn moved(b: u64, places: u64) -> u64
    requires { (b < 256) × (1 ≤ places) × (places ≤ 3) }
    ensures { result ≡ 256 ^ places * b }
{
    match places {
        1 => b << 8,
        2 => b << 16,
        _ => b << 24,
    }
}

// One byte joined to a value of so many bytes, below them or, where the lowest is first, above them.
pub(crate) fn join_step(big: bool, v: u64, places: u64, b: u64) -> u64
    requires { (v < 256 ^ places) × (1 ≤ places) × (places ≤ 3) × (b < 256) }
    ensures { (result ≡ join_step big v (256 ^ places) b) × (result < 256 ^ places * 256) }
{
    if big {
        (v << 8) + b
    } else {
        v + moved(b, places)
    }
}

// Two bytes as one number.
pub fn join_two(big: bool, a: u8, b: u8) -> u64
    ensures { (result ≡ join_step big a 256 b) × (result < 65536) }
{
    join_step(big, u64::from(a), 1, u64::from(b))
}

// A third byte joined to two.
pub fn join_third(big: bool, two: u16, c: u8) -> u64
    ensures { (result ≡ join_step big two 65536 c) × (result < 16777216) }
{
    join_step(big, u64::from(two), 2, u64::from(c))
}

// n + 1 bytes separated by blanks, joined into one number.
fn joined_of(t: &[u8], at: usize, radix: u8, big: bool, n: u64) -> Parsed<u32>
    requires { n ≤ 3 }
    ensures { told result ≡ joined_at radix big n t.now at }
{
    let first = quick_numbers::parse_byte(t, at, radix)?;
    let mut v = u64::from(first.value);
    let mut p = first.next;
    for places in 1..n + 1 {
        let b = quick_numbers::next_byte(t, p, radix)?;
        v = join_step(big, v, places, u64::from(b.value));
        p = b.next;
    }
    Ok(Read {
        value: v as u32,
        next: p,
    })
}

// Two bytes as one number. The common form is read at once. The long way's answer is taken apart and made anew, so that both ways make their answer here.
pub fn two_of(t: &[u8], at: usize, radix: u8, big: bool) -> Parsed<u32>
    ensures { told result ≡ joined_at radix big 1 t.now at }
{
    let v = short_two(t, at, radix, big);
    if v < 65536 {
        return Ok(Read {
            value: v as u32,
            next: at + 5,
        });
    }
    Ok(joined_of(t, at, radix, big, 1)?)
}

// Three bytes as one number. The common form is read at once, and the long way's answer is made anew, as with two.
pub fn three_of(t: &[u8], at: usize, radix: u8, big: bool) -> Parsed<u32>
    ensures { told result ≡ joined_at radix big 2 t.now at }
{
    let v = short_three(t, at, radix, big);
    if v < 16777216 {
        return Ok(Read {
            value: v as u32,
            next: at + 8,
        });
    }
    Ok(joined_of(t, at, radix, big, 2)?)
}

// Four bytes as one number.
pub fn four_of(t: &[u8], at: usize, radix: u8, big: bool) -> Parsed<u32>
    ensures { told result ≡ joined_at radix big 3 t.now at }
{
    joined_of(t, at, radix, big, 3)
}
