// The answer for an area's id and a position, once the tables and the rows of the records are there.
ghost use Rattle.std.specs.Prelude.{◌≤◌};
ghost use Rattle.one_position.specs.Answer.{AnswerIs};

use crate::back::last_of;
use position_answer::Explained;
use position_home::home_for;

// 20 where no kept area has the id or the position lies outside of it; else who wrote it last.
pub(crate) fn answer(
    areas: &[u32],
    n: usize,
    pairs: &[u32],
    content: &[u8],
    fragments: &[u32],
    many: usize,
    big: bool,
    width: usize,
    id: u32,
    position: u32,
) -> Explained
    requires { (n ≤ 64) × (many ≤ 4096) }
    ensures { AnswerIs areas.now n pairs.now content.now fragments.now many big width id position result }
{
    let home = home_for(areas, n, id, position);
    if home.id == 0 {
        return Explained::Refused {
            number: 20,
            place: 0,
        };
    }
    last_of(pairs, content, fragments, many, big, width, home, position)
}
