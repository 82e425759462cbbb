// Patterns out of a pattern book: handed back as parts of the lent book, or copied into lent values and masks.
#![tactic(auto)]

ghost use Rattle.std.specs.Prelude.{◌≡◌, ◌+◌, min, length};
ghost use Rattle.std.proofs.lemmas.List.Edits.{sets};
ghost use Rattle.book.specs.Contents.{part};
ghost use Rattle.book.specs.Found.{room_for, located, opens_at};
ghost use Rattle.book_read.specs.Told.{Copying};

use book_find::find_name;
use book_open::{Refusal, open_book};
use book_rows::part_of;
use cells::{copy_bytes, wide};

// The values of a pattern that was found, as a part of the book.
pub fn values_of<'a>(book: &'a [u8], place: u32, size: u32) -> &'a [u8]
    ensures { result.now ≡ part book.now place size }
{
    part_of(book, wide(place), size)
}

// Its masks, as a part of the book.
pub fn masks_of<'a>(book: &'a [u8], place: u32, size: u32) -> &'a [u8]
    ensures { result.now ≡ part book.now (place + size) size }
{
    part_of(book, wide(place) + wide(size), size)
}

// The values of a pattern that was found, copied.
fn lay_values(book: &[u8], place: u32, size: u32, values: &mut [u8])
    ensures { values.new ≡ sets values.old 0 (part book.now place size) }
{
    copy_bytes(values, 0, values_of(book, place, size), wide(size));
}

// Its masks, copied.
fn lay_masks(book: &[u8], place: u32, size: u32, masks: &mut [u8])
    ensures { masks.new ≡ sets masks.old 0 (part book.now (place + size) size) }
{
    copy_bytes(masks, 0, masks_of(book, place, size), wide(size));
}

// A pattern that was found, copied into lent values and masks: how many positions, or 24. A refusal leaves both as they were.
pub fn copy_found(
    book: &[u8],
    place: u32,
    size: u32,
    values: &mut [u8],
    masks: &mut [u8],
) -> Result<u32, Refusal>
    ensures { Copying book.now (room_for (min (length values.old) (length masks.old)) (record { at = place; size = size })) values.old masks.old result values.new masks.new }
{
    if values.len() < wide(size) {
        return Err(Refusal {
            number: 24,
            place: 0,
        });
    }
    if masks.len() < wide(size) {
        return Err(Refusal {
            number: 24,
            place: 0,
        });
    }
    lay_values(book, place, size, values);
    lay_masks(book, place, size, masks);
    Ok(size)
}

// The pattern of a name in a book that was opened: 23, then 24.
pub fn copy_pattern(
    book: &[u8],
    name: &[u8],
    values: &mut [u8],
    masks: &mut [u8],
) -> Result<u32, Refusal>
    ensures { Copying book.now (located book.now name.now (min (length values.old) (length masks.old))) values.old masks.old result values.new masks.new }
{
    let Some(found) = find_name(book, name) else {
        return Err(Refusal {
            number: 23,
            place: 0,
        });
    };
    copy_found(book, found.place, found.size, values, masks)
}

// The same for any file: it is opened first, 21 and 22.
pub fn fetch_pattern(
    book: &[u8],
    name: &[u8],
    values: &mut [u8],
    masks: &mut [u8],
) -> Result<u32, Refusal>
    ensures { Copying book.now (opens_at book.now name.now (min (length values.old) (length masks.old))) values.old masks.old result values.new masks.new }
{
    open_book(book)?;
    copy_pattern(book, name, values, masks)
}
