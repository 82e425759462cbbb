// The answer about the T and R records of a text: its type, its numbers for C, and what a text that is not admitted is answered.
#![tactic(auto)]

ghost use Rattle.std.specs.Prelude.{◌≡◌};
ghost use Rattle.pairs_answer.specs.Told.{told, unlaid};
ghost use Rattle.pairs_answer.specs.Numbers.{pairs_numbers};

use admission::Gate;
use answer::Refusal;
use pair_rows::PairCounts;

// The counts, or the text's refusal.
pub type PairsAnswer = Result<PairCounts, Refusal>;

// A refusal's number and place; or 0, and how many pairs, content bytes and fragments there are.
#[repr(C)]
#[derive(Clone, Copy)]
pub struct PairsNumbers {
    pub refusal: u32,
    pub place: usize,
    pub pairs: usize,
    pub content: usize,
    pub fragments: usize,
}

// What is answered before any record is laid: a text's refusal, or that there are none so far.
pub fn before_laying(gate: Gate) -> PairsAnswer
    ensures { result ≡ unlaid gate }
{
    gate?;
    Ok(PairCounts {
        pairs: 0,
        content: 0,
        fragments: 0,
    })
}

// The numbers of an answer about records.
pub fn pairs_numbers(answer: PairsAnswer) -> PairsNumbers
    ensures { result ≡ pairs_numbers (told answer) }
{
    match answer {
        Err(refusal) => PairsNumbers {
            refusal: refusal.number,
            place: refusal.place,
            pairs: 0,
            content: 0,
            fragments: 0,
        },
        Ok(counts) => PairsNumbers {
            refusal: 0,
            place: 0,
            pairs: counts.pairs,
            content: counts.content,
            fragments: counts.fragments,
        },
    }
}
