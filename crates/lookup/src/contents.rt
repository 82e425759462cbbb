// What is in a book: a line for each entry.
use sink::{Buffer, Sink};

// An entry's line: the size of its pattern, and its name.
fn line(s: Sink, out: &mut Buffer, book: &[u8], i: u32) -> Sink {
    let row = book_rows::row_at(book, i);
    let s1 = texts::decimal(s, out, b"size ", cells::wide(row.size));
    let s2 = sink::put(s1, out, b" ");
    let s3 = texts::name(s2, out, book_rows::name_at(book, i));
    sink::put(s3, out, b"\n")
}

// The lines of all entries.
pub(crate) fn tell(out: &mut Buffer, book: &[u8], n: u32) {
    let mut now = sink::new();
    for i in 0..n {
        now = line(now, out, book, i);
    }
    sink::flush(now, out);
}
