// The first pass over the contents: each row points into the file, and its name stands behind the one before it.
ghost use Rattle.std.specs.Prelude.{◌≡◌, drop};
ghost use Rattle.std.proofs.Math.Option.{none};
ghost use Rattle.book.specs.Contents.{rows};
ghost use Rattle.book.specs.Found.{row_at};
ghost use Rattle.book.specs.Opened.{name_of, in_file, behind, ordered};
ghost use Rattle.book.specs.Steps.{silent, last_name, row_fits};
ghost use Rattle.book_open.specs.Told.{passed_of};

use crate::open::Refusal;
use book_rows::{compare, name_at, place_of, row_at};
use cells::wide;

// Whether the name and the pattern of the i-th row lie in the file.
fn in_file(book: &[u8], i: u32) -> bool
    ensures { result ≡ in_file book.now (row_at book.now i) }
{
    let row = row_at(book, i);
    if book.len() < wide(row.name) + wide(row.long) {
        return false;
    }
    wide(row.at) + 2 * wide(row.size) <= book.len()
}

// Whether the name of the i-th row stands behind the one before it, if there is one.
fn behind_last(book: &[u8], i: u32) -> bool
    ensures { result ≡ behind (last_name book.now i) (name_of book.now (row_at book.now i)) }
{
    if i < 1 {
        return true;
    }
    compare(name_at(book, i - 1), name_at(book, i)).is_lt()
}

// Whether the i-th row passes 21.
fn row_fits(book: &[u8], i: u32) -> bool
    ensures { result ≡ row_fits book.now i }
{
    if in_file(book, i) {
        behind_last(book, i)
    } else {
        false
    }
}

// The first pass over n rows: 21 at the first that does not pass.
pub(crate) fn first_pass(book: &[u8], n: u32) -> Result<(), Refusal>
    ensures { silent (ordered book.now 4 none (rows n (drop 4 book.now))) ≡ passed_of result }
{
    for i in 0..n {
        if !row_fits(book, i) {
            return Err(Refusal {
                number: 21,
                place: place_of(i),
            });
        }
    }
    Ok(())
}
