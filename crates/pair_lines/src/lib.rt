// The T and R lines of the pair that wrote a position, for a person: each under its number, a caret under the byte, and each fragment that covers the byte
// with its mode in words and what it refers to.
#![tactic(auto)]

mod fragment;
mod words;

use answer::Counts;
use header::{Form, Head, Width};
use rooms::{AREA_ROOM, SYMBOL_ROOM};
use sink::{Buffer, Sink};
use steps::{Body, PairStep};

// How many bytes an address has.
fn bytes_of(width: Width) -> usize {
    match width {
        Width::Two => 2,
        Width::Three => 3,
        Width::Four => 4,
    }
}

// How far a position lies behind an address.
fn behind(position: u32, address: u32) -> u32 {
    if address <= position {
        return position - address;
    }
    0
}

// The pair at a place: its T line with a caret under the byte that a position is written from, and the fragments of its R line that cover it.
fn pair(
    s: Sink,
    out: &mut Buffer,
    text: &[u8],
    place: usize,
    form: Form,
    position: u32,
    body: Body,
    ms: &[u32; 64],
    es: &[u32; 64],
    xs: &[u32; 64],
    counts: Counts,
    areas: &[u32; AREA_ROOM],
    symbols: &[u32; SYMBOL_ROOM],
) -> Sink {
    let Body::Placed {
        address,
        count,
        area: _,
        fragments: n,
    } = body
    else {
        return s;
    };
    let w = form.width;
    let width = bytes_of(w);
    let entries = sink::end_of(width, count, usize::MAX);
    let e = covering::entry_of(ms, es, n, width, entries, behind(position, address));
    let byte = words::word_place(text, place, sink::end_of(e, 1, usize::MAX));
    let s1 = marked_line::marked(s, out, text, byte);
    let s2 = sink::put(s1, out, b"this byte\n");
    let l = text_lines::line_at(text, place);
    fragment::lines(
        s2, out, text, l.next, form.radix, width, e, n, ms, es, xs, counts, areas, symbols,
    )
}

// The lines of the pair whose T stands at a place, which wrote a position; nothing where there is no such pair.
pub fn show(
    s: Sink,
    out: &mut Buffer,
    text: &[u8],
    place: usize,
    position: u32,
    counts: Counts,
    areas: &[u32; AREA_ROOM],
    symbols: &[u32; SYMBOL_ROOM],
) -> Sink {
    let Head::Found { form, next: _ } = header::format_spec(text) else {
        return s;
    };
    let mut bs = [0u8; 256];
    let mut ms = [0u32; 64];
    let mut es = [0u32; 64];
    let mut xs = [0u32; 64];
    let step = steps::pair_step(text, place, form, true, &mut bs, &mut ms, &mut es, &mut xs);
    let PairStep::Takes {
        body,
        end: _,
        next: _,
        on: _,
    } = step
    else {
        return s;
    };
    pair(
        s, out, text, place, form, position, body, &ms, &es, &xs, counts, areas, symbols,
    )
}
