// Which symbols the arguments name, and whether they can go.
use fragment_symbols::referring;
use kept_symbols::mark;
use name_index::first_named;
use rooms::TEXT_ROOM;
use std::env::Env;
use symbol_rows::symbol_name;

// A flag for each symbol: 1 if it is to go.
pub(crate) type Flags = [u8; 1024];

// Marks the symbols that an argument names; one that is not there is told.
fn mark_argument(
    rt: &impl Env,
    text: &[u8],
    symbols: &[u32],
    n: usize,
    i: usize,
    flags: &mut Flags,
) -> bool {
    let mut word = [0u8; TEXT_ROOM];
    match host::argument(rt, i, &mut word) {
        Ok(k) => mark_named(text, symbols, n, sink::first_bytes(&word, k), flags),
        Err(why) => {
            console::tell_reason(b"the name", why);
            false
        }
    }
}

// Marks the symbols of a name; that there is none is told.
fn mark_named(text: &[u8], symbols: &[u32], n: usize, name: &[u8], flags: &mut Flags) -> bool {
    if n <= first_named(name, text, symbols, n, &[0]) {
        console::tell_words(name, b"no such symbol");
        return false;
    }
    mark(text, symbols, n, name, flags);
    true
}

// Marks the symbols that the arguments name, of which the one that ends the options names none. Every one that is not there is told.
pub(crate) fn mark_all(
    rt: &impl Env,
    text: &[u8],
    symbols: &[u32],
    n: usize,
    end: usize,
    count: usize,
    flags: &mut Flags,
) -> bool {
    let mut all = true;
    for i in 1..count {
        if i != end && !mark_argument(rt, text, symbols, n, i, flags) {
            all = false;
        }
    }
    all
}

// Whether none of the marked symbols is referred to by one of m fragments; each that is, is told by name.
pub(crate) fn all_free(
    text: &[u8],
    symbols: &[u32],
    n: usize,
    fragments: &[u32],
    m: usize,
    flags: &Flags,
) -> bool {
    let mut free = true;
    for j in 0..n {
        if cells::byte_at(flags, j) == 1 && referring(fragments, m, j) < m {
            console::tell_words(symbol_name(text, symbols, j), b"an R line refers to it");
            free = false;
        }
    }
    free
}
