// The ended reading: what document 01 says of a text, why and where a reading that stopped came to a halt, and what the H line
// says of the counts. Both are looked at once, behind the reading.
#![tactic(auto)]

ghost use Rattle.answer.specs.Answer.{held, told};
ghost use Rattle.told_beside.specs.Beside.{accepted_with};
ghost use Rattle.ended.specs.Answer.{Answers, Beside, Read, WasRead};

use answer::Counts;
use ended_answer::Answer;
use header::Head;

// What is told beside the counts and the verdict of a text that was accepted. Such a text has a header.
fn accepted(t: &[u8], counts: Counts, verdict: answer::Verdict) -> Answer
    requires { Read t.now counts verdict }
    ensures { Beside t.now (accepted_with counts verdict) result }
{
    let Head::Found { form, next } = header::format_spec(t) else {
        return Answer::Refusal {
            number: 4,
            place: 0,
        };
    };
    let head = next + scan::line_ending(t, next);
    told_beside::accepted(t, head, form, counts, verdict)
}

// A reading's answer, with what is told beside it.
fn beside(t: &[u8], answer: answer::Answer) -> Answer
    requires { WasRead t.now answer }
    ensures { Beside t.now (told answer) result }
{
    match answer {
        Err(refusal) => Answer::Refusal {
            number: refusal.number,
            place: refusal.place,
        },
        Ok(told) => accepted(t, told.counts, told.verdict),
    }
}

// The ended reading: a record counts only if a full line end stands behind it.
pub fn read_ended(
    text: &[u8],
    areas: &mut [u32],
    symbols: &mut [u32],
    values: &mut [u8],
    masks: &mut [u8],
    fixups: &mut [u32],
) -> Answer
    ensures { Answers text.now (held areas.old symbols.old values.old masks.old fixups.old) result (held areas.new symbols.new values.new masks.new fixups.new) }
{
    let answer = reading::read_ended(text, areas, symbols, values, masks, fixups);
    beside(text, answer)
}
