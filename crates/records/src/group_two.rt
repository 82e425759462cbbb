// Where group two begins.
ghost use Rattle.std.specs.Prelude.{◌≤◌, length};
ghost use Rattle.header.specs.Told.{form_of};
ghost use Rattle.records.specs.Walking.{TwoAt};

use header::Form;
use steps::{EntryStep, entry_step};

// The place behind the lines of group one, from a place on.
pub(crate) fn group_two_at(t: &[u8], at: usize, form: Form) -> usize
    requires { at ≤ length t.now }
    ensures { TwoAt (form_of form) t.now at result }
{
    let mut p = at;
    loop {
        let step = entry_step(t, p, form, true);
        let EntryStep::Takes {
            entry: _,
            end: _,
            next,
            on: _,
        } = step
        else {
            return p;
        };
        p = next;
    }
}
