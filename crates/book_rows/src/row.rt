// Numbers and rows of the contents.
ghost use Rattle.std.specs.Prelude.{◌≡◌};
ghost use Rattle.book.specs.Contents.{number, start};
ghost use Rattle.book.specs.Found.{row_at};
ghost use Rattle.book.specs.Opened.{name_of};
ghost use Rattle.book_rows.specs.Told.{row_by};

use crate::name::part_of;
use cells::wide;
use joining::endian_to_number;

// An entry's row: place and length of its name, place and size of its pattern.
#[derive(Clone, Copy)]
pub struct Row {
    pub name: u32,
    pub long: u32,
    pub at: u32,
    pub size: u32,
}

// The number whose four bytes stand at a place, the lowest first.
pub fn number_at(book: &[u8], at: usize) -> u32
    ensures { result ≡ number book.now at }
{
    if book.len() < at {
        return 0;
    }
    endian_to_number(false, &book[at..], 4)
}

// The place of the i-th row, and that behind the contents of i entries.
pub fn place_of(i: u32) -> usize
    ensures { result ≡ start i }
{
    4 + 16 * wide(i)
}

// The i-th row of the contents.
pub fn row_at(book: &[u8], i: u32) -> Row
    ensures { row_by result ≡ row_at book.now i }
{
    let place = 4 + 16 * wide(i);
    let name = number_at(book, place);
    let long = number_at(book, place + 4);
    let at = number_at(book, place + 8);
    let size = number_at(book, place + 12);
    Row {
        name,
        long,
        at,
        size,
    }
}

// The name of the i-th row, as a part of the book.
pub fn name_at<'a>(book: &'a [u8], i: u32) -> &'a [u8]
    ensures { result.now ≡ name_of book.now (row_at book.now i) }
{
    let row = row_at(book, i);
    part_of(book, wide(row.name), row.long)
}
