// The fragments that cover a byte: each in its R line, with its mode in words and what it refers to.
use crate::words::{fragment_place, mode_words};
use answer::Counts;
use cells::{at, wide};
use rooms::{AREA_ROOM, SYMBOL_ROOM};
use sink::{Buffer, Sink};

// A symbol, by its index among n.
fn symbol(s: Sink, out: &mut Buffer, text: &[u8], symbols: &[u32], n: usize, i: usize) -> Sink {
    if n <= i {
        return texts::decimal(s, out, b"; refers to a symbol that is not there, ", i);
    }
    let s1 = sink::put(s, out, b"; refers to the symbol ");
    let s2 = texts::name(s1, out, symbol_rows::symbol_name(text, symbols, i));
    if symbol_rows::is_ref(symbols, i) {
        return sink::put(s2, out, b", which another module defines");
    }
    sink::put(s2, out, b", which this module defines")
}

// An area, by its index among n.
fn area(s: Sink, out: &mut Buffer, text: &[u8], areas: &[u32], n: usize, i: usize) -> Sink {
    if n <= i {
        return texts::decimal(s, out, b"; refers to an area that is not there, ", i);
    }
    let s1 = sink::put(s, out, b"; refers to the area ");
    texts::name(s1, out, area_rows::area_name(text, areas, i))
}

// A fragment by its number, its mode, and what it refers to: with bit 1 a symbol, else an area.
fn told(
    s: Sink,
    out: &mut Buffer,
    text: &[u8],
    i: usize,
    mode: u32,
    index: u32,
    counts: Counts,
    areas: &[u32; AREA_ROOM],
    symbols: &[u32; SYMBOL_ROOM],
) -> Sink {
    let s1 = texts::decimal(s, out, b"fragment ", sink::end_of(i, 1, usize::MAX));
    let s2 = texts::hex3(s1, out, b", mode ", wide(mode));
    let s3 = mode_words(s2, out, mode);
    let s4 = if mode / 2 % 2 == 1 {
        symbol(s3, out, text, symbols, counts.symbols, wide(index))
    } else {
        area(s3, out, text, areas, counts.areas, wide(index))
    };
    sink::put(s4, out, b"\n")
}

// Every fragment of the R line at a place that covers the entry e, each under the line with a caret; or that none does.
pub(crate) fn lines(
    s: Sink,
    out: &mut Buffer,
    text: &[u8],
    place: usize,
    radix: u8,
    width: usize,
    e: usize,
    n: usize,
    ms: &[u32; 64],
    es: &[u32; 64],
    xs: &[u32; 64],
    counts: Counts,
    areas: &[u32; AREA_ROOM],
    symbols: &[u32; SYMBOL_ROOM],
) -> Sink {
    let mut now = s;
    let mut none = true;
    for i in 0..n {
        if covering::covers(at(ms, i), at(es, i), width, e) {
            let s1 = marked_line::marked(now, out, text, fragment_place(text, place, i, radix));
            now = told(
                s1,
                out,
                text,
                i,
                at(ms, i),
                at(xs, i),
                counts,
                areas,
                symbols,
            );
            none = false;
        }
    }
    if none {
        let s1 = marked_line::marked(now, out, text, place);
        return sink::put(s1, out, b"no fragment covers the byte\n");
    }
    now
}
