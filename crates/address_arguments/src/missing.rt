// Kept areas and outside symbols without an address.
use crate::noted::{Flags, symbol_place};
use sink::{Buffer, Sink};
use symbol_rows::{is_ref, symbol_name};

// Tells words under a name that waits in a buffer.
fn tell(s: Sink, line: &Buffer, words: &[u8]) {
    console::tell_words(sink::first_bytes(line, s.used), words)
}

// Tells words of the area of an id.
pub(crate) fn tell_area(id: usize, words: &[u8]) {
    let mut line = io::large_buffer();
    let s = texts::decimal(sink::new(), &mut line, b"area ", id);
    tell(s, &line, words)
}

// Whether each kept area has an address; each that has none is told.
pub(crate) fn areas_have(kept: usize, flags: &Flags) -> bool {
    let mut all = true;
    for id in 0..kept {
        if cells::byte_at(flags, id) == 0 {
            tell_area(id, b"no address");
            all = false;
        }
    }
    all
}

// Whether each outside symbol has an address; each that has none is told.
pub(crate) fn symbols_have(text: &[u8], symbols: &[u32], n: usize, flags: &Flags) -> bool {
    let mut all = true;
    for j in 0..n {
        if is_ref(symbols, j) && cells::byte_at(flags, symbol_place(j)) == 0 {
            console::tell_words(symbol_name(text, symbols, j), b"no address");
            all = false;
        }
    }
    all
}
