// The halt of the line behind a T line: its area's index, and then the fragment that is due.
#![tactic(auto)]

ghost use Rattle.std.specs.Prelude.{◌≡◌, length};
ghost use Rattle.format.specs.Got.{many};
ghost use Rattle.format.specs.Pairs.{fragment};
ghost use Rattle.header.specs.Told.{form_of};
ghost use Rattle.fragments.specs.Fragments.{told_fragment};
ghost use Rattle.halt.specs.Halt.{why, fragment_due};
ghost use Rattle.line_halt.specs.Told.{told_halt};

use fragments::Fragment;
use header::Form;
use line_halt::Halt;
use numbers::Parsed;

// The fragment that is due behind those that can be read.
fn next_due(t: &[u8], at: usize, radix: u8, big: bool) -> Parsed<Fragment>
    ensures { told_fragment result ≡ fragment radix big t.now (many (length t.now) (fragment radix big) t.now at).end }
{
    let mut p = at;
    for _ in 0..t.len() {
        let read = fragments::fragment_at(t, p, radix, big)?;
        p = read.next;
    }
    fragments::fragment_at(t, p, radix, big)
}

// The line behind a T line: an R line, with one fragment more asked for than it has.
fn fragment_due(t: &[u8], form: Form) -> Parsed<Fragment>
    ensures { told_fragment result ≡ fragment_due (form_of form) t.now 0 }
{
    let area = pair_line::area_part(t, form)?;
    next_due(t, area.next, form.radix, form.big)
}

// The halt of the line behind a T line that reads; where a fragment was read, the line end was due behind it.
pub fn relocation_halt(t: &[u8], form: Form) -> Halt
    ensures { told_halt result ≡ why (fragment_due (form_of form) t.now 0) }
{
    match fragment_due(t, form) {
        Ok(read) => Halt {
            reason: 4,
            at: read.next,
        },
        Err(halt) => Halt {
            reason: halt.reason as u8,
            at: halt.at,
        },
    }
}
