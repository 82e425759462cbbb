// The book of what is on the shelf, on standard output.
use crate::shelf::Shelf;
use crate::told;
use book_plan::Refusal;
use host::STDOUT_FILENO;

// The most entries, and the longest book of so many: their rows, and what the pool has.
const ENTRIES: usize = 16384;

const BOOK: usize = 2359300;

// Lent bytes and lent numbers of these lengths.
type Book = [u8; BOOK];

type Order = [u32; ENTRIES];

// A name that stands twice, or no room.
fn unwritten(pool: &[u8], rows: &[u32], why: Refusal) {
    if why.number == 21 {
        console::tell_words(
            book_given::given_name(pool, rows, why.place),
            b"stands twice",
        );
    } else {
        told::full();
    }
    told::nothing()
}

// The book into lent bytes, and then out.
fn put(out: &mut [u8], order: &mut [u32], pool: &[u8], rows: &[u32], n: u32) {
    match book_write::write_book(out, order, pool, rows, n) {
        Err(why) => unwritten(pool, rows, why),
        Ok(length) => {
            if !io::write_all(STDOUT_FILENO, sink::first_bytes(out, length)) {
                console::tell_reason(b"standard output", host::last_failure());
            }
        }
    }
}

// The same with the whole room for a book and for the order of its entries.
fn put_whole(out: &mut Book, order: &mut Order, pool: &[u8], rows: &[u32], n: u32) {
    put(out, order, pool, rows, n)
}

// Room for a book, and for the order of its entries.
fn empty_book() -> Book {
    [0; BOOK]
}

fn empty_order() -> Order {
    [0; ENTRIES]
}

// Writes the book, unless a module was not taken and none may be left out.
pub(crate) fn write(pool: &[u8], rows: &[u32], s: Shelf, skip: bool) {
    if s.listing {
        return;
    }
    if s.full {
        told::full();
        told::nothing();
        return;
    }
    if s.bad {
        if !skip {
            told::nothing();
            return;
        }
    }
    let mut out = empty_book();
    let mut order = empty_order();
    put_whole(&mut out, &mut order, pool, rows, s.entries)
}
