// The way in: refusals 1 to 3, by the lengths of the lent buffers and the bytes of the text; and 18, by the header's radix.
#![tactic(auto)]

ghost use Rattle.std.specs.Prelude.{◌≡◌, ◌≤◌, length};
ghost use Rattle.format.specs.Reading.{first_high, takes as takes_radix};
ghost use Rattle.way_in.specs.WayIn.{high_of, Caps, roomy, fits_from, GateIs, takes_by};

use answer::Refusal;
use rooms::{AREA_ROOM, FIXUP_ROOM, IMAGE_ROOM, SYMBOL_ROOM, TEXT_ROOM};

// How long the lent buffers are.
#[derive(Clone, Copy)]
pub struct Lent {
    pub areas: usize,
    pub symbols: usize,
    pub values: usize,
    pub masks: usize,
    pub fixups: usize,
}

// The lowest byte that no text may have.
const HIGH: u8 = 128;

// The greater of two bytes.
fn greater(a: u8, b: u8) -> u8
    ensures { (a ≤ result) × (b ≤ result) }
{
    if a < b { b } else { a }
}

// The highest byte of a text, 0 if it has none: a loop without an exit on the way, so that many bytes are compared at once.
fn highest(t: &[u8]) -> u8
    ensures { Caps result t.now }
{
    let mut h = 0;
    for b in t {
        h = greater(h, *b);
    }
    h
}

// The place of the first byte above 127, or the text's end, byte by byte.
fn find_high(t: &[u8]) -> usize
    ensures { first_high 0 t.now ≡ high_of (length t.now) result }
{
    for (i, b) in t.iter().enumerate() {
        if HIGH <= *b {
            return i;
        }
    }
    t.len()
}

// The same, without the search where no byte is above 127.
fn first_high(t: &[u8]) -> usize
    ensures { first_high 0 t.now ≡ high_of (length t.now) result }
{
    if highest(t) < HIGH {
        return t.len();
    }
    find_high(t)
}

// Whether each lent buffer has room for its bound.
fn has_room(lent: Lent) -> bool
    ensures { result ≡ roomy lent }
{
    if lent.areas < AREA_ROOM {
        return false;
    }
    if lent.symbols < SYMBOL_ROOM {
        return false;
    }
    if lent.values < IMAGE_ROOM {
        return false;
    }
    if lent.masks < IMAGE_ROOM {
        return false;
    }
    FIXUP_ROOM <= lent.fixups
}

// Whether a text may be read into buffers of these lengths; else its refusal.
pub fn admit(t: &[u8], lent: Lent) -> Result<(), Refusal>
    ensures { GateIs lent t.now result }
{
    if !has_room(lent) {
        return Err(Refusal {
            number: 1,
            place: 0,
        });
    }
    if TEXT_ROOM < t.len() {
        return Err(Refusal {
            number: 2,
            place: 0,
        });
    }
    let h = first_high(t);
    if h < t.len() {
        return Err(Refusal {
            number: 3,
            place: h,
        });
    }
    Ok(())
}

// Whether the lines from a place on, of a text of n bytes, may be read into buffers of these lengths.
pub fn fits_from(at: usize, n: usize, lent: Lent) -> bool
    ensures { result ≡ fits_from at n lent }
{
    if n < at {
        return false;
    }
    if TEXT_ROOM < n {
        return false;
    }
    has_room(lent)
}

// Whether a reading takes a header of this radix, else 18: the ended one takes X only.
pub fn takes(ended: bool, radix: u8) -> bool
    ensures { result ≡ takes_radix ended radix }
{
    if ended {
        return radix == 16;
    }
    true
}

// The same where a reading may be told to take every radix.
pub fn takes_by(every: bool, ended: bool, radix: u8) -> bool
    ensures { result ≡ takes_by every ended radix }
{
    if every {
        return true;
    }
    takes(ended, radix)
}
