// What the line at a place does to group one.
ghost use Rattle.std.specs.Prelude.{◌≡◌};
ghost use Rattle.laws.specs.Places.{entry_at};
ghost use Rattle.header.specs.Told.{form_of};
ghost use Rattle.steps.specs.Entries.{told_step, StepIn};

use crate::lines::line_at;
use entry_line::Entry;
use header::Form;
use line_step::{LineStep, line_step};

// What a line does to group one: it stops it, or is taken; then where its record ends, where the next line begins, and whether the reading goes on there.
#[derive(Clone, Copy)]
pub enum EntryStep {
    Stops,
    Takes {
        entry: Entry,
        end: usize,
        next: usize,
        on: bool,
    },
}

// What the line at a place does to group one.
pub fn entry_step(t: &[u8], p: usize, form: Form, ended: bool) -> EntryStep
    ensures result_value { told_step p result ≡ entry_at ended (form_of form) t.now p }
    ensures step_in { StepIn t.now p result }
{
    if t.len() < p {
        return EntryStep::Stops;
    }
    let l = line_at(t, p);
    let q = l.end;
    let Ok(entry) = entry_line::parse_entry(&t[p..q], form) else {
        return EntryStep::Stops;
    };
    let used = entry.next;
    match line_step(used, q - p, l.ends, l.next, p + used, ended) {
        LineStep::Stops => EntryStep::Stops,
        LineStep::Goes { end } => EntryStep::Takes {
            entry: entry.value,
            end,
            next: l.next,
            on: true,
        },
        LineStep::Last { end } => EntryStep::Takes {
            entry: entry.value,
            end,
            next: l.next,
            on: false,
        },
    }
}
