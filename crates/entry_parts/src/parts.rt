// A title, which is the letter and a name, and a word with its number.
ghost use Rattle.std.specs.Prelude.{◌≡◌};
ghost use Rattle.format.specs.Number.{name};
ghost use Rattle.format.specs.Entries.{titled, field};
ghost use Rattle.numbers.specs.Told.{told};
ghost use Rattle.entry_parts.specs.Told.{told_name};

use crate::Name;
use numbers::{Halt, Parsed, Read, Reason};
use scan::Kind;

// A name: a run without blank, CR or LF.
fn parse_symbol(t: &[u8], at: usize) -> Parsed<Name>
    ensures { told_name result ≡ name t.now at }
{
    let end = scan::past_kind(t, at, Kind::InName);
    if end == at {
        return Err(Halt {
            reason: Reason::Other,
            at,
        });
    }
    Ok(Read {
        value: Name { at, len: end - at },
        next: end,
    })
}

// A line's letter, blanks, and a name.
pub fn title(t: &[u8], w: &[u8]) -> Parsed<Name>
    ensures { told_name result ≡ titled w.now t.now 0 }
{
    let next = fields::lead_at(t, 0, w)?;
    parse_symbol(t, next)
}

// A word and a number, each behind blanks.
pub fn field_at(t: &[u8], at: usize, w: &[u8], radix: u8) -> Parsed<u32>
    ensures { told result ≡ field w.now radix t.now at }
{
    let a = scan::past_kind(t, at, Kind::Blank);
    if a == at {
        return Err(Halt {
            reason: Reason::Other,
            at,
        });
    }
    let next = fields::lead_at(t, a, w)?;
    quick_numbers::parse_number(t, next, radix)
}
