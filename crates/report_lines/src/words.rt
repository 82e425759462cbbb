// Figures and totals in words.
use counts_of::Counted;
use ended_answer::Verdict;
use figures::Classes;
use sink::{Buffer, Sink};
use totals::{Figures, Totals, Verdicts};

// A word and a number of 64 bits.
fn number(s: Sink, out: &mut Buffer, word: &[u8], n: u64) -> Sink {
    texts::decimal(s, out, word, n as usize)
}

// Kept areas, positions, known bits and fixups.
fn figures(s: Sink, out: &mut Buffer, f: Figures) -> Sink {
    let s1 = number(s, out, b" kept ", f.kept);
    let s2 = number(s1, out, b" positions ", f.positions);
    let s3 = number(s2, out, b" unwritten ", f.unwritten);
    let s4 = number(s3, out, b" known ", f.known);
    number(s4, out, b" fixups ", f.fixups)
}

// Fixups by class.
fn classes(s: Sink, out: &mut Buffer, c: Classes) -> Sink {
    let s1 = number(s, out, b" addr19 ", c.addr19);
    let s2 = number(s1, out, b" addr11 ", c.addr11);
    let s3 = number(s2, out, b" addr24 ", c.addr24);
    let s4 = number(s3, out, b" addr16 ", c.addr16);
    number(s4, out, b" byte ", c.byte)
}

// A name and a colon.
fn title(s: Sink, out: &mut Buffer, name: &[u8]) -> Sink {
    let t = texts::name(s, out, name);
    sink::put(t, out, b":")
}

// The line of a module that is read.
pub fn read_line(
    s: Sink,
    out: &mut Buffer,
    name: &[u8],
    t: Totals,
    verdict: Verdict,
    counted: Counted,
) -> Sink {
    let f = t.figures;
    let c = t.classes;
    let s1 = title(s, out, name);
    let s2 = figures(s1, out, f);
    let s3 = classes(s2, out, c);
    let s4 = sink::put(s3, out, b" ");
    let s5 = verdict_words::words(s4, out, verdict, counted);
    sink::put(s5, out, b"\n")
}

// The line of a module that is refused.
pub fn refused_line(s: Sink, out: &mut Buffer, name: &[u8], number: usize, place: usize) -> Sink {
    let s1 = title(s, out, name);
    let s2 = texts::decimal(s1, out, b" refused ", number);
    let s3 = texts::decimal(s2, out, b" at ", place);
    sink::put(s3, out, b"\n")
}

// The first line of the totals: modules, and how they ended.
fn verdicts_line(s: Sink, out: &mut Buffer, v: Verdicts) -> Sink {
    let s1 = number(s, out, b"total modules ", v.modules);
    let s2 = number(s1, out, b" refused ", v.refused);
    let s3 = number(s2, out, b" finished ", v.finished);
    let s4 = number(s3, out, b" stopped ", v.stopped);
    let s5 = number(s4, out, b" not equal ", v.unequal);
    sink::put(s5, out, b"\n")
}

// The lines of the totals.
pub fn totals_lines(s: Sink, out: &mut Buffer, t: Totals) -> Sink {
    let v = t.verdicts;
    let f = t.figures;
    let c = t.classes;
    let s1 = verdicts_line(s, out, v);
    let s2 = sink::put(s1, out, b"total");
    let s3 = figures(s2, out, f);
    let s4 = classes(s3, out, c);
    sink::put(s4, out, b"\n")
}

// The line of one name more than is taken; standard error is told too.
pub fn over(s: Sink, out: &mut Buffer) -> Sink {
    let t = sink::put(s, out, b"refused 17 at 0\n");
    console::tell(t, out, b"standard input", b"refused 17 at 0")
}
