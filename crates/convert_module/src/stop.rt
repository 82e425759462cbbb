// The answer to a module whose reading stopped.
ghost use Rattle.std.specs.Prelude.{◌≡◌};
ghost use Rattle.header.specs.Told.{form_of};
ghost use Rattle.told_beside.specs.Beside.{halt_behind};
ghost use Rattle.convert_answer.specs.Converts.{stopped_at, told};

use convert_answer::Converted;
use header::Form;
use told_beside::stop_halt;

// The place, and why and where the line there came to a halt, behind a header line that ends at head.
pub(crate) fn stopped_at(t: &[u8], head: usize, form: Form, place: usize) -> Converted
    ensures { told result ≡ stopped_at place (halt_behind (form_of form) t.now head place) }
{
    let halt = stop_halt(t, head, form, place);
    Converted::Stopped {
        place: place,
        reason: halt.reason,
        halt: halt.at,
    }
}
