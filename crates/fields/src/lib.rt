// What lines of both groups share: a word and blanks, letters that are due, and lines that are ignored.
// A reader gets the bytes of one line, with no CR or LF among them. Places are places in the line.
#![tactic(auto)]

ghost use Rattle.std.specs.Prelude.{◌≡◌};
ghost use Rattle.format.specs.Entries.{lead};
ghost use Rattle.fields.specs.Told.{went};
ghost use Rattle.fields.specs.Due.{Due};

use numbers::{Halt, Reason};
use scan::Kind;

mod ignored;

pub use ignored::ignore_line;

// A word and blanks: the place behind them.
pub fn lead_at(t: &[u8], at: usize, w: &[u8]) -> Result<usize, Halt>
    ensures { went result ≡ lead w.now t.now at }
{
    let a = scan::past_word(t, at, w);
    if a == at {
        return Err(Halt {
            reason: Reason::Other,
            at,
        });
    }
    let b = scan::past_kind(t, a, Kind::Blank);
    if b == a {
        return Err(Halt {
            reason: Reason::Other,
            at: a,
        });
    }
    Ok(b)
}

// Whether a byte is the one that is due, and those before it were.
pub fn same_so_far(b: u8, due: u8, before: bool) -> bool
    ensures { Due b due before result }
{
    b == due && before
}
