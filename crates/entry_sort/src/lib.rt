// What says of which sort a line of group one is: its letter, and of an S line the word Ref or Def.
#![tactic(auto)]

ghost use Rattle.std.specs.Prelude.{◌≡◌};
ghost use Rattle.format.specs.Entries.{ref_or_def};
ghost use Rattle.entry_sort.specs.Sorts.{letter_of, told_ref};

use numbers::{Halt, Parsed, Read, Reason};

// An A line, an S line, or another.
#[derive(Clone, Copy)]
pub enum Letter {
    Area,
    Symbol,
    Other,
}

// Of which sort a line is, by its first byte.
pub fn letter_of(b: u8) -> Letter
    ensures { result ≡ letter_of b }
{
    match b {
        b'A' => Letter::Area,
        b'S' => Letter::Symbol,
        _ => Letter::Other,
    }
}

// Whether it is Ref, else it is Def; elsewhere a halt at the place.
pub fn ref_or_def(t: &[u8], at: usize) -> Parsed<bool>
    ensures { told_ref result ≡ ref_or_def t.now at }
{
    let a = scan::past_word(t, at, b"Ref");
    if a != at {
        return Ok(Read {
            value: true,
            next: a,
        });
    }
    let b = scan::past_word(t, at, b"Def");
    if b != at {
        return Ok(Read {
            value: false,
            next: b,
        });
    }
    Err(Halt {
        reason: Reason::Other,
        at,
    })
}
