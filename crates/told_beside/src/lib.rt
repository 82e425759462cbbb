// What is told beside a reading's counts and verdict: why and where one that stopped came to a halt, and what the H line says of
// the counts. It looks at the text once more, behind a header line that ends at head.
#![tactic(auto)]

ghost use Rattle.std.specs.Prelude.{◌≡◌};
ghost use Rattle.header.specs.Told.{form_of};
ghost use Rattle.line_halt.specs.Told.{told_halt};
ghost use Rattle.told_beside.specs.Beside.{Tells, halt_behind, judged};

use answer::Counts;
use ended_answer::{Answer, Verdict};
use header::Form;
use line_halt::Halt;

// Why and where the line at a stop came to a halt. A pair was taken exactly if the place lies behind the end of group one.
pub fn stop_halt(t: &[u8], head: usize, form: Form, place: usize) -> Halt
    ensures { told_halt result ≡ halt_behind (form_of form) t.now head place }
{
    let end = counts_of::group_one_end(t, head, form);
    let halt = halt_of::halt_at(t, place, form, end < place);
    halt
}

// A reading's verdict, with the halt where it stopped.
fn judge(t: &[u8], head: usize, form: Form, verdict: answer::Verdict) -> Verdict
    ensures { result ≡ judged (form_of form) t.now head verdict }
{
    match verdict {
        answer::Verdict::Finished => Verdict::Finished,
        answer::Verdict::Stopped { place } => {
            let halt = stop_halt(t, head, form, place);
            Verdict::Stopped {
                place: place,
                reason: halt.reason,
                halt: halt.at,
            }
        }
    }
}

// The counts and the verdict of a reading, with what is told beside them.
pub fn accepted(
    t: &[u8],
    head: usize,
    form: Form,
    counts: Counts,
    verdict: answer::Verdict,
) -> Answer
    ensures { Tells (form_of form) t.now head counts verdict result }
{
    let counted = counts_of::told_counts(t, head, form, counts.areas, counts.symbols);
    Answer::Accepted {
        counts: counts,
        verdict: judge(t, head, form, verdict),
        counted: counted,
    }
}
