// A name looked up in a pattern book, through the contents by halving.
#![tactic(auto)]

ghost use Rattle.std.specs.Prelude.{◌≡◌};
ghost use Rattle.book.specs.Found.{find};
ghost use Rattle.book_find.specs.Told.{found_of};

use book_rows::{compare, name_at, number_at, row_at};
use std::cmp::Ordering;

// Where a pattern stands, and how many positions it has.
#[derive(Clone, Copy)]
pub struct Found {
    pub place: u32,
    pub size: u32,
}

// The pattern of a name, if the book has one. What it finds in a book that opens equals a search through all entries.
pub fn find_name(book: &[u8], name: &[u8]) -> Option<Found>
    ensures { find book.now name.now ≡ found_of result }
{
    let mut low: u32 = 0;
    let mut high: u32 = number_at(book, 0);
    while low < high {
        let middle = low + (high - low) / 2;
        match compare(name, name_at(book, middle)) {
            Ordering::Less => {
                high = middle;
            }
            Ordering::Equal => {
                let row = row_at(book, middle);
                return Some(Found {
                    place: row.at,
                    size: row.size,
                });
            }
            Ordering::Greater => {
                low = middle + 1;
            }
        }
    }
    None
}
