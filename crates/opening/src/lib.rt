// What a text opens with: its header line. A text is answered at once where it has none or one that is not taken; else its lines are read.
#![tactic(auto)]

ghost use Rattle.std.specs.Prelude.{◌≡◌};
ghost use Rattle.format.specs.Reading.{refusal};
ghost use Rattle.answer.specs.Answer.{told};
ghost use Rattle.opening.specs.Opening.{answered, header_alone, opening, told_opening};

use answer::{Answer, Counts, Refusal, accept};
use header::{Form, Head};
use way_in::takes_by;

// The answer to a text whose lines are not read; or its form, the place where its lines begin, and where its header ends.
#[derive(Clone, Copy)]
pub enum Opening {
    Answered { answer: Answer },
    Lines { form: Form, at: usize, head: usize },
}

// A text of n bytes with a header that ends at a place and no line end behind it.
fn header_only(ended: bool, n: usize, next: usize) -> Answer
    ensures { told result ≡ header_alone ended n next }
{
    if ended {
        return Err(Refusal {
            number: 4,
            place: 0,
        });
    }
    let none = Counts {
        areas: 0,
        symbols: 0,
        lines: 0,
        kept: 0,
        positions: 0,
        fixups: 0,
    };
    accept(none, n, next)
}

// A refusal that has no place of its own.
fn refused(number: u32) -> Opening
    ensures { told_opening result ≡ answered (refusal number 0) }
{
    Opening::Answered {
        answer: Err(Refusal { number, place: 0 }),
    }
}

// 4, then 18 where not every radix is taken; else the lines behind the header. The header ends behind its line end in the ended
// reading, and before it in the plain one.
pub fn open(t: &[u8], every: bool, ended: bool) -> Opening
    ensures { told_opening result ≡ opening every ended t.now }
{
    let Head::Found { form, next } = header::format_spec(t) else {
        return refused(4);
    };
    let e = scan::line_ending(t, next);
    if e == 0 {
        let only = header_only(ended, t.len(), next);
        return Opening::Answered { answer: only };
    }
    if !takes_by(every, ended, form.radix) {
        return refused(18);
    }
    let at = next + e;
    if ended {
        return Opening::Lines {
            form: form,
            at: at,
            head: at,
        };
    }
    Opening::Lines {
        form: form,
        at: at,
        head: next,
    }
}
