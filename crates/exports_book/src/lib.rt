// What C and Rust link of a pattern book: opening one, its rows, finding a name, and copying a pattern, over numbers
// and slices. Every function answers for every input and takes no heap; none asks anything of its caller.
#![tactic(auto)]

ghost use Rattle.std.specs.Prelude.{◌≡◌, min, length};
ghost use Rattle.book.specs.Opened.{check};
ghost use Rattle.book.specs.Found.{find, located, row_at};
ghost use Rattle.book_find.specs.Told.{found_of};
ghost use Rattle.book_open.specs.Told.{entries_told, opened_of};
ghost use Rattle.exports_book.specs.Numbers.{Copies, copied_by, entry_numbers, found_numbers, opened_numbers};

use book_find::{Found, find_name};
use book_open::{Refusal, open_book};
use book_read::copy_pattern;
use book_rows::row_at;

// What opening tells: 0 and how many entries; or 21 or 22 and its place.
#[repr(C)]
#[derive(Clone, Copy)]
pub struct OpenedNumbers {
    pub refusal: u32,
    pub entries: u32,
    pub place: usize,
}

// A row of the contents: place and length of a name, place and size of its pattern.
#[repr(C)]
#[derive(Clone, Copy)]
pub struct EntryNumbers {
    pub name: u32,
    pub length: u32,
    pub place: u32,
    pub size: u32,
}

// What finding tells: 0, where the pattern stands and how many positions it has; or 23.
#[repr(C)]
#[derive(Clone, Copy)]
pub struct FoundNumbers {
    pub refusal: u32,
    pub place: u32,
    pub size: u32,
}

// What copying tells: 0 and how many positions were copied; or 23 or 24.
#[repr(C)]
#[derive(Clone, Copy)]
pub struct CopiedNumbers {
    pub refusal: u32,
    pub size: u32,
    pub place: usize,
}

fn opened_numbers(answer: Result<u32, Refusal>) -> OpenedNumbers
    ensures { result ≡ opened_numbers (opened_of answer) }
{
    match answer {
        Ok(entries) => OpenedNumbers {
            refusal: 0,
            entries: entries,
            place: 0,
        },
        Err(why) => OpenedNumbers {
            refusal: u32::from(why.number),
            entries: 0,
            place: why.place,
        },
    }
}

fn found_numbers(answer: Option<Found>) -> FoundNumbers
    ensures { result ≡ found_numbers (found_of answer) }
{
    match answer {
        Some(found) => FoundNumbers {
            refusal: 0,
            place: found.place,
            size: found.size,
        },
        None => FoundNumbers {
            refusal: 23,
            place: 0,
            size: 0,
        },
    }
}

fn copied_numbers(answer: Result<u32, Refusal>) -> CopiedNumbers
    ensures { result ≡ copied_by answer }
{
    match answer {
        Ok(size) => CopiedNumbers {
            refusal: 0,
            size: size,
            place: 0,
        },
        Err(why) => CopiedNumbers {
            refusal: u32::from(why.number),
            size: 0,
            place: why.place,
        },
    }
}

// A file opened as a book: 21, then 22.
#[unsafe(no_mangle)]
pub extern "C" fn gatecobalt_book_open(book: &[u8]) -> OpenedNumbers
    ensures { result ≡ opened_numbers (entries_told (check book.now)) }
{
    opened_numbers(open_book(book))
}

// The i-th row of the contents.
#[unsafe(no_mangle)]
pub extern "C" fn gatecobalt_book_entry(book: &[u8], i: u32) -> EntryNumbers
    ensures { result ≡ entry_numbers (row_at book.now i) }
{
    let row = row_at(book, i);
    EntryNumbers {
        name: row.name,
        length: row.long,
        place: row.at,
        size: row.size,
    }
}

// The pattern of a name, where it stands in the book: 23.
#[unsafe(no_mangle)]
pub extern "C" fn gatecobalt_book_find(book: &[u8], name: &[u8]) -> FoundNumbers
    ensures { result ≡ found_numbers (find book.now name.now) }
{
    found_numbers(find_name(book, name))
}

// The pattern of a name, copied into lent values and masks: 23, then 24. A refusal leaves both as they were.
#[unsafe(no_mangle)]
pub extern "C" fn gatecobalt_book_pattern(
    book: &[u8],
    name: &[u8],
    values: &mut [u8],
    masks: &mut [u8],
) -> CopiedNumbers
    ensures { Copies book.now (located book.now name.now (min (length values.old) (length masks.old))) values.old masks.old result values.new masks.new }
{
    copied_numbers(copy_pattern(book, name, values, masks))
}
