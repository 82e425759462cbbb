// A pattern as rows of the listing.
use crate::told;
use sink::{Buffer, Sink};

// What stands in front of a position: at every eighth a new row begins with its number.
fn row_start(s: Sink, out: &mut Buffer, position: usize) -> Sink {
    if position % 8 != 0 {
        return s;
    }
    if position == 0 {
        return texts::hex4(s, out, b"", position);
    }
    texts::hex4(s, out, b"\n", position)
}

// The rows: eight positions a row, each its value and its mask.
fn rows(s: Sink, out: &mut Buffer, values: &[u8], masks: &[u8]) -> Sink {
    let mut now = s;
    for i in 0..values.len() {
        let begun = row_start(now, out, i);
        now = area_line::position(begun, out, values, masks, i);
    }
    sink::put(now, out, b"\n")
}

// The pattern of a name, or 23.
pub(crate) fn tell(out: &mut Buffer, book: &[u8], name: &[u8]) {
    match book_find::find_name(book, name) {
        None => told::refused(out, 23, 0),
        Some(found) => {
            let values = book_read::values_of(book, found.place, found.size);
            let masks = book_read::masks_of(book, found.place, found.size);
            let s = rows(sink::new(), out, values, masks);
            sink::flush(s, out);
        }
    }
}
