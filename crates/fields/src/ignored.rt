// Lines that are ignored: O, H and M lines, and a T line with a P line.
ghost use Rattle.std.specs.Prelude.{◌≡◌};
ghost use Rattle.format.specs.Entries.{letter_and_more};
ghost use Rattle.fields.specs.Told.{went, one_of};

use numbers::{Halt, Reason};

// Whether a byte is one of the letters.
fn one_of(letters: &[u8], b: u8) -> bool
    ensures { result ≡ one_of letters.now b }
{
    letters.contains(&b)
}

// One of the letters and at least one more byte: the place behind the whole line.
pub fn ignore_line(t: &[u8], letters: &[u8]) -> Result<usize, Halt>
    ensures { went result ≡ letter_and_more (one_of letters.now) tt t.now 0 }
{
    if !one_of(letters, scan::byte_at(t, 0)) {
        return Err(Halt {
            reason: Reason::Other,
            at: 0,
        });
    }
    if t.len() < 2 {
        return Err(Halt {
            reason: Reason::Other,
            at: 1,
        });
    }
    Ok(t.len())
}
