// The bar of a module: its positions by kind, to scale.
use kinds::Kinds;
use sink::{Buffer, Sink};

// The share of n in so many, in hundredths of a percent.
fn share(n: usize, of: usize) -> usize {
    if of == 0 {
        return 0;
    }
    if 65536 < n {
        return 10000;
    }
    n * 10000 / of
}

// A word, and a share in percent with two digits behind the point.
fn percent(s: Sink, out: &mut Buffer, word: &[u8], n: usize) -> Sink {
    let t = texts::decimal(s, out, word, n / 100);
    if n % 100 < 10 {
        return texts::decimal(t, out, b".0", n % 100);
    }
    texts::decimal(t, out, b".", n % 100)
}

// A part of the bar in a pattern, from one share to another.
fn part(s: Sink, out: &mut Buffer, pattern: &[u8], from: usize, to: usize) -> Sink {
    if to <= from {
        return s;
    }
    let s1 = percent(s, out, b"<rect height='13' x='", from);
    let s2 = percent(s1, out, b"%' width='", to - from);
    let s3 = sink::put(s2, out, b"%' fill='url(#");
    let s4 = sink::put(s3, out, pattern);
    sink::put(s4, out, b")'/>")
}

// The sum of two counts, but not more than an image can have.
fn sum(a: usize, b: usize) -> usize {
    sink::end_of(a, b, 65536)
}

// The parts up to these shares.
fn parts(s: Sink, out: &mut Buffer, known: usize, partly: usize, relocated: usize) -> Sink {
    let s1 = part(s, out, b"k", 0, known);
    let s2 = part(s1, out, b"p", known, partly);
    let s3 = part(s2, out, b"r", partly, relocated);
    part(s3, out, b"u", relocated, 10000)
}

// The bar of positions of which so many are known, so many at least partly, and so many written.
fn drawn(
    s: Sink,
    out: &mut Buffer,
    known: usize,
    partly: usize,
    written: usize,
    of: usize,
) -> Sink {
    let t = sink::put(s, out, b"<svg class='b' height='13'>");
    let u = parts(
        t,
        out,
        share(known, of),
        share(partly, of),
        share(written, of),
    );
    sink::put(u, out, b"</svg>")
}

// The whole bar, or that there is none.
pub(crate) fn bar(s: Sink, out: &mut Buffer, k: Kinds) -> Sink {
    let partly = sum(k.known, k.partly);
    let written = sum(partly, k.relocated);
    let of = sum(written, k.unwritten);
    if of == 0 {
        return sink::put(s, out, b"<i>no positions</i>");
    }
    drawn(s, out, k.known, partly, written, of)
}
