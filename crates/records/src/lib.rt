// The T and R records of a module's text as rows in three lent buffers, or a refusal that changes none of them.
#![tactic(auto)]

ghost use Rattle.record_rows.specs.ReadPairs.{PairsMeet};
ghost use Rattle.any_radix.specs.PairsAny.{PairsMeetAny};
ghost use Rattle.pair_rows.specs.Rows.{held};
ghost use Rattle.pairs_answer.specs.Told.{told};

use crate::laying::lay_text;
use admits::{admit, admit_any};
use answer::Refusal;
use pair_rows::has_room;
use pairs_answer::{PairsAnswer, before_laying};

mod group_two;
mod laying;
mod walk;

// The T and R records of a text that the ended reading accepts. A row of a pair is the T's place, its address, its area's index, its first content byte and how many it has, its first
// fragment and how many it has; a row of a fragment is mode, entry and index.
pub fn read_pairs(
    text: &[u8],
    pairs: &mut [u32],
    content: &mut [u8],
    fragments: &mut [u32],
) -> PairsAnswer
    ensures { PairsMeet text.now (held pairs.old content.old fragments.old) (told result) (held pairs.new content.new fragments.new) }
{
    if !has_room(pairs.len(), content.len(), fragments.len()) {
        return Err(Refusal {
            number: 1,
            place: 0,
        });
    }
    let gate = admit(text);
    let Ok(()) = gate else {
        return before_laying(gate);
    };
    lay_text(text, pairs, content, fragments)
}

// The same of a text whose header may be of every radix.
pub fn read_any_pairs(
    text: &[u8],
    pairs: &mut [u32],
    content: &mut [u8],
    fragments: &mut [u32],
) -> PairsAnswer
    ensures { PairsMeetAny text.now (held pairs.old content.old fragments.old) (told result) (held pairs.new content.new fragments.new) }
{
    if !has_room(pairs.len(), content.len(), fragments.len()) {
        return Err(Refusal {
            number: 1,
            place: 0,
        });
    }
    let gate = admit_any(text);
    let Ok(()) = gate else {
        return before_laying(gate);
    };
    lay_text(text, pairs, content, fragments)
}
