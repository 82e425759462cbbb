// The halt of a line of group one: its letter says which form it had to have.
ghost use Rattle.std.specs.Prelude.{◌≡◌};
ghost use Rattle.header.specs.Told.{form_of};
ghost use Rattle.fields.specs.Told.{went};
ghost use Rattle.halt.specs.Halt.{why, fields_due, area_due, entry_halt};
ghost use Rattle.line_halt.specs.Told.{told_halt};

use crate::Halt;
use header::Form;
use scan::Kind;

// Why a line is not what was due: its reader's halt; where one was read up to a place, the line end was due there.
fn why(read: Result<usize, numbers::Halt>) -> Halt
    ensures { told_halt result ≡ why (went read) }
{
    match read {
        Ok(next) => Halt {
            reason: 4,
            at: next,
        },
        Err(halt) => Halt {
            reason: halt.reason as u8,
            at: halt.at,
        },
    }
}

// ` size N flags N addr N`, with the addr that may stand there asked for: the place behind its blanks.
fn fields_due(t: &[u8], at: usize, radix: u8) -> Result<usize, numbers::Halt>
    ensures { went result ≡ fields_due radix t.now at }
{
    let size = entry_parts::field_at(t, at, b"size", radix)?;
    let flags = entry_parts::field_at(t, size.next, b"flags", radix)?;
    let addr = entry_parts::field_at(t, flags.next, b"addr", radix)?;
    Ok(scan::past_kind(t, addr.next, Kind::Blank))
}

// An A line.
fn area_due(t: &[u8], form: Form) -> Result<usize, numbers::Halt>
    ensures { went result ≡ area_due (form_of form) t.now 0 }
{
    let name = entry_parts::title(t, b"A")?;
    fields_due(t, name.next, form.radix)
}

// A line of group one that the reading did not take.
pub fn entry_halt(t: &[u8], form: Form) -> Halt
    ensures { told_halt result ≡ entry_halt (form_of form) t.now }
{
    if scan::byte_at(t, 0) == b'A' {
        return why(area_due(t, form));
    }
    match entry_line::parse_entry(t, form) {
        Ok(entry) => why(Ok(entry.next)),
        Err(halt) => why(Err(halt)),
    }
}
