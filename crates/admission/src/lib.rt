// Whether a text is admitted: the answer's type, what it says by the definition, and what a reading's answer makes of it.
#![tactic(auto)]

ghost use Rattle.std.specs.Prelude.{◌≡◌};
ghost use Rattle.answer.specs.Answer.{told};
ghost use Rattle.admission.specs.Admits.{gate_of};

use answer::{Answer, Refusal};

// Whether a text is read, else its refusal.
pub type Gate = Result<(), Refusal>;

// What an answer says of it.
pub fn answered(answer: Answer) -> Gate
    ensures { result ≡ gate_of (told answer) }
{
    answer?;
    Ok(())
}
