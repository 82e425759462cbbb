// The halt of the lines at a place of the text.
ghost use Rattle.std.specs.Prelude.{◌≡◌, ◌≤◌, length};
ghost use Rattle.laws.specs.Places.{line_at, next_line};
ghost use Rattle.header.specs.Told.{form_of};
ghost use Rattle.halt.specs.Halt.{entry_halt, pair_halt, halt_at};
ghost use Rattle.line_halt.specs.Told.{told_halt};
ghost use Rattle.halt_of.specs.Told.{further};

use crate::pair::pair_halt;
use header::Form;
use line_halt::{Halt, entry_halt};
use pair_due::pair_due;

// The line at a place, as one of group one.
fn entry_at(t: &[u8], p: usize, form: Form) -> Halt
    requires { p ≤ length t.now }
    ensures { told_halt result ≡ further p (entry_halt (form_of form) (line_at t.now p).bytes) }
{
    let l = text_lines::line_at(t, p);
    let q = l.end;
    let h = entry_halt(&t[p..q], form);
    Halt {
        reason: h.reason,
        at: p + h.at,
    }
}

// The two lines at a place, as a T line and the line behind it.
fn pair_at(t: &[u8], p: usize, form: Form) -> Halt
    requires { p ≤ length t.now }
    ensures { told_halt result ≡ further p (pair_halt (form_of form) (line_at t.now p) (line_at t.now (next_line t.now p))) }
{
    let l = text_lines::line_at(t, p);
    let q = l.end;
    let n = l.next;
    let k = text_lines::line_at(t, n);
    let s = k.end;
    let h = pair_halt(&t[p..q], l.ends, &t[n..s], form);
    Halt {
        reason: h.reason,
        at: p + h.at,
    }
}

// Why the reading stopped at a place, with whether it had taken a pair by then.
pub fn halt_at(t: &[u8], p: usize, form: Form, paired: bool) -> Halt
    ensures { told_halt result ≡ halt_at (form_of form) paired t.now p }
{
    if t.len() < p {
        return Halt { reason: 4, at: p };
    }
    if pair_due(t, p, paired) {
        return pair_at(t, p, form);
    }
    entry_at(t, p, form)
}
