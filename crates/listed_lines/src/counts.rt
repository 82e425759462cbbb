// The lines that a listing begins with.
use answer::Counts;
use sink::{Buffer, Sink};

// The line of a refusal.
pub fn refusal_line(s: Sink, out: &mut Buffer, number: usize, place: usize) -> Sink {
    let s1 = texts::decimal(s, out, b"refused ", number);
    let s2 = texts::decimal(s1, out, b" at ", place);
    sink::put(s2, out, b"\n")
}

// How many areas, symbols and T and R pairs there are.
pub fn summary(s: Sink, out: &mut Buffer, counts: Counts) -> Sink {
    let s1 = texts::decimal(s, out, b"areas ", counts.areas);
    let s2 = texts::decimal(s1, out, b" symbols ", counts.symbols);
    let s3 = texts::decimal(s2, out, b" lines ", counts.lines);
    sink::put(s3, out, b"\n")
}

// Where the plain reading of n bytes ended, in words that are no verdict.
pub fn ending_line(s: Sink, out: &mut Buffer, place: usize, n: usize) -> Sink {
    let s1 = texts::decimal(s, out, b"plain reading ended at ", place);
    let s2 = texts::decimal(s1, out, b" of ", n);
    sink::put(s2, out, b"\n")
}
