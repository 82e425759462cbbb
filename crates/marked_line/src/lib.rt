// The line at a place of a text, shown under its number, and under it a caret at the place.
#![tactic(auto)]

use shown_line::Window;
use sink::{Buffer, Sink};

// So many blanks, up to 96.
fn blanks(s: Sink, out: &mut Buffer, n: usize) -> Sink {
    sink::put(
        s,
        out,
        sink::first_bytes(
            b"                                                                                                ",
            n,
        ),
    )
}

// How many digits a number has in decimal.
fn digits(n: usize) -> usize {
    let mut text = [0u8; 20];
    io::decimal(n as u64, &mut text)
}

// Two dots where a part of the line is left out.
fn dots(s: Sink, out: &mut Buffer, left: bool) -> Sink {
    if left {
        return sink::put(s, out, b"..");
    }
    s
}

// How many bytes there are between two places.
fn between(from: usize, to: usize) -> usize {
    if from <= to {
        return to - from;
    }
    0
}

// The line under its number, or the part of it that fits.
fn line(s: Sink, out: &mut Buffer, text: &[u8], w: Window, number: usize) -> Sink {
    let s1 = texts::decimal(s, out, b"", number);
    let s2 = dots(sink::put(s1, out, b" | "), out, w.start < w.from);
    let shown = row_parts::part(text, w.from, between(w.from, w.to));
    let s3 = shown_line::put_safe(s2, out, shown);
    let s4 = dots(s3, out, w.to < w.end);
    sink::put(s4, out, b"\n")
}

// The caret under a place of the line.
fn caret(s: Sink, out: &mut Buffer, w: Window, number: usize, place: usize) -> Sink {
    let s1 = blanks(s, out, digits(number));
    let s2 = sink::put(s1, out, b" | ");
    let s3 = if w.start < w.from {
        blanks(s2, out, 2)
    } else {
        s2
    };
    let s4 = blanks(s3, out, between(w.from, place));
    sink::put(s4, out, b"^ ")
}

// The line at a place, and the caret under the place; what is to be said of it goes behind the caret.
pub fn marked(s: Sink, out: &mut Buffer, text: &[u8], place: usize) -> Sink {
    let w = shown_line::shown_part(text, place);
    let number = sink::end_of(shown_line::lines_before(text, place), 1, usize::MAX);
    let s1 = line(s, out, text, w, number);
    caret(s1, out, w, number, place)
}
