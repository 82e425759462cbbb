// The whole file: 21 at 0, the first pass, the second pass, bytes left over.
ghost use Rattle.std.specs.Prelude.{◌≡◌};
ghost use Rattle.book.specs.Opened.{check};
ghost use Rattle.book_open.specs.Told.{entries_told, opened_of};

use crate::closed::second_pass;
use crate::ordered::first_pass;
use book_rows::{number_at, place_of};

// Why a book is refused, by its number, and where.
#[derive(Clone, Copy)]
pub struct Refusal {
    pub number: u8,
    pub place: usize,
}

// A file opened, with how many entries it has: 21 first, over all rows, then 22.
pub fn open_book(book: &[u8]) -> Result<u32, Refusal>
    ensures { entries_told (check book.now) ≡ opened_of result }
{
    let n = number_at(book, 0);
    if book.len() < place_of(n) {
        return Err(Refusal {
            number: 21,
            place: 0,
        });
    }
    first_pass(book, n)?;
    let place = second_pass(book, n)?;
    if place == book.len() {
        return Ok(n);
    }
    Err(Refusal { number: 22, place })
}
