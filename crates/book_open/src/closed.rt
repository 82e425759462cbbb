// The second pass over the contents: each body begins where the one before it ended.
ghost use Rattle.std.specs.Prelude.{◌≡◌, drop};
ghost use Rattle.book.specs.Contents.{rows, start};
ghost use Rattle.book.specs.Opened.{closed};
ghost use Rattle.book.specs.Steps.{row_meets, row_end};
ghost use Rattle.book_open.specs.Told.{ended_of};

use crate::open::Refusal;
use book_rows::{place_of, row_at};
use cells::wide;

// Whether the i-th row passes 22, where the bodies before it end at a place.
fn row_meets(book: &[u8], at: usize, i: u32) -> bool
    ensures { result ≡ row_meets book.now at i }
{
    let row = row_at(book, i);
    if wide(row.name) == at {
        wide(row.at) == wide(row.name) + wide(row.long)
    } else {
        false
    }
}

// Where the body of the i-th row ends.
fn row_end(book: &[u8], i: u32) -> usize
    ensures { result ≡ row_end book.now i }
{
    let row = row_at(book, i);
    wide(row.at) + 2 * wide(row.size)
}

// Where the bodies of n rows end, or 22 at the first row that does not follow the one before it.
pub(crate) fn second_pass(book: &[u8], n: u32) -> Result<usize, Refusal>
    ensures { closed 4 (start n) (rows n (drop 4 book.now)) ≡ ended_of result }
{
    let mut at: usize = place_of(n);
    for i in 0..n {
        if !row_meets(book, at, i) {
            return Err(Refusal {
                number: 22,
                place: place_of(i),
            });
        }
        at = row_end(book, i);
    }
    Ok(at)
}
