// The line `H N areas N global symbols`: each space one or more blanks, blanks may trail, nothing else.
#![tactic(auto)]

ghost use Rattle.std.specs.Prelude.{◌≡◌, length};
ghost use Rattle.fields.specs.Told.{went};
ghost use Rattle.counts.specs.Counts.{last_word, symbol_words, two_numbers, whole_line, tells as tells_of};
ghost use Rattle.h_line.specs.Told.{told_two};

use numbers::{Halt, Reason};
use scan::Kind;

// The numbers of areas and of global symbols that a line tells.
#[derive(Clone, Copy)]
pub struct Told {
    pub areas: u32,
    pub symbols: u32,
}

// The word symbols, and blanks.
fn last_word(t: &[u8], at: usize) -> Result<usize, Halt>
    ensures { went result ≡ last_word t.now at }
{
    let a = scan::past_word(t, at, b"symbols");
    if a == at {
        return Err(Halt {
            reason: Reason::Other,
            at,
        });
    }
    Ok(scan::past_kind(t, a, Kind::Blank))
}

// ` global symbols`, and blanks.
fn symbol_words(t: &[u8], at: usize) -> Result<usize, Halt>
    ensures { went result ≡ symbol_words t.now at }
{
    let a = scan::past_kind(t, at, Kind::Blank);
    if a == at {
        return Err(Halt {
            reason: Reason::Other,
            at,
        });
    }
    let next = fields::lead_at(t, a, b"global")?;
    last_word(t, next)
}

// `N areas N global symbols` up to the line's end.
fn two_numbers(t: &[u8], at: usize, radix: u8) -> Option<Told>
    ensures { told_two result ≡ whole_line (length t.now) (two_numbers radix t.now at) }
{
    let Ok(areas) = quick_numbers::parse_number(t, at, radix) else {
        return None;
    };
    let Ok(symbols) = entry_parts::field_at(t, areas.next, b"areas", radix) else {
        return None;
    };
    let Ok(end) = symbol_words(t, symbols.next) else {
        return None;
    };
    if end == t.len() {
        return Some(Told {
            areas: areas.value,
            symbols: symbols.value,
        });
    }
    None
}

// What the bytes of a line tell, if they tell.
pub fn tells(t: &[u8], radix: u8) -> Option<Told>
    ensures { told_two result ≡ tells_of radix t.now }
{
    match fields::lead_at(t, 0, b"H") {
        Ok(next) => two_numbers(t, next, radix),
        Err(_) => None,
    }
}
