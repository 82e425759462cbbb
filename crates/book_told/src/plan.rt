// The answer, decided before anything lent is changed.
ghost use Rattle.std.specs.Prelude.{◌≡◌};
ghost use Rattle.book_plan.specs.Told.{wrote_of};
ghost use Rattle.book_told.specs.Told.{answer_to};

use book_plan::{Refusal, plan_book};
use cells::wide;

// How long the book of n entries is, with so many lent numbers and bytes, or why it is refused: 1, 21, 24.
pub fn plan_lent(
    pool: &[u8],
    rows: &[u32],
    n: u32,
    numbers: usize,
    room: usize,
) -> Result<usize, Refusal>
    ensures { answer_to pool.now rows.now n numbers room ≡ wrote_of result }
{
    if rows.len() < 5 * wide(n) {
        return Err(Refusal {
            number: 1,
            place: 0,
        });
    }
    if numbers < wide(n) {
        return Err(Refusal {
            number: 1,
            place: 0,
        });
    }
    plan_book(pool, rows, n, room)
}
