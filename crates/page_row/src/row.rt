// The rows of modules, and a line before the row of each that needs a person.
use crate::bar::bar;
use counts_of::Counted;
use ended_answer::Verdict;
use kinds::Kinds;
use sink::{Buffer, Sink};
use totals::Figures;

// Whether a module is whole: finished, and its counts not told otherwise.
fn is_whole(verdict: Verdict, counted: Counted) -> bool {
    matches!(verdict, Verdict::Finished) && !matches!(counted, Counted::NotEqual)
}

// How a line or a row begins: words of the page, and a name.
fn named(s: Sink, out: &mut Buffer, begin: &[u8], name: &[u8], end: &[u8]) -> Sink {
    let s1 = sink::put(s, out, begin);
    let s2 = page_name::name(s1, out, name);
    sink::put(s2, out, end)
}

// The line of a module that needs a person, up to its words.
fn trouble(s: Sink, out: &mut Buffer, name: &[u8]) -> Sink {
    named(s, out, b"<div class='t'><bdi>", name, b"</bdi> <b>")
}

// The row of such a module, behind its line.
fn troubled_row(s: Sink, out: &mut Buffer, name: &[u8]) -> Sink {
    let s1 = sink::put(s, out, b"</b></div>\n");
    named(s1, out, b"<div class='m w'><bdi>", name, b"</bdi> <b>")
}

// The next column, with a number.
fn column(s: Sink, out: &mut Buffer, n: usize) -> Sink {
    let t = texts::decimal(s, out, b" <i>", n);
    sink::put(t, out, b"</i>")
}

// How many positions there are of each kind.
fn by_kind(s: Sink, out: &mut Buffer, k: Kinds) -> Sink {
    let s1 = column(s, out, k.known);
    let s2 = column(s1, out, k.partly);
    let s3 = column(s2, out, k.relocated);
    column(s3, out, k.unwritten)
}

// The bar, and the end of a row.
fn barred(s: Sink, out: &mut Buffer, k: Kinds) -> Sink {
    let s1 = sink::put(s, out, b" ");
    let s2 = bar(s1, out, k);
    sink::put(s2, out, b"</div>\n")
}

// The numbers of a row, and its bar.
fn numbers(s: Sink, out: &mut Buffer, f: Figures, k: Kinds) -> Sink {
    let s1 = sink::put(s, out, b"</b>");
    let s2 = column(s1, out, f.kept as usize);
    let s3 = column(s2, out, f.positions as usize);
    let s4 = by_kind(s3, out, k);
    let s5 = column(s4, out, f.fixups as usize);
    barred(s5, out, k)
}

// How the row of a module that is read begins, behind its line if it is not whole.
fn begun(s: Sink, out: &mut Buffer, name: &[u8], verdict: Verdict, counted: Counted) -> Sink {
    if is_whole(verdict, counted) {
        return named(s, out, b"<div class='m'><bdi>", name, b"</bdi> <b>");
    }
    let s1 = trouble(s, out, name);
    let s2 = verdict_words::words(s1, out, verdict, counted);
    troubled_row(s2, out, name)
}

// A module that is read.
pub fn read_row(
    s: Sink,
    out: &mut Buffer,
    name: &[u8],
    f: Figures,
    k: Kinds,
    verdict: Verdict,
    counted: Counted,
) -> Sink {
    let s1 = begun(s, out, name, verdict, counted);
    let s2 = verdict_words::words(s1, out, verdict, counted);
    numbers(s2, out, f, k)
}

// A refusal in words.
fn refusal(s: Sink, out: &mut Buffer, number: usize, place: usize) -> Sink {
    let t = texts::decimal(s, out, b"refused ", number);
    texts::decimal(t, out, b" at ", place)
}

// A module that is refused.
pub fn refused_row(s: Sink, out: &mut Buffer, name: &[u8], number: usize, place: usize) -> Sink {
    let s1 = trouble(s, out, name);
    let s2 = refusal(s1, out, number, place);
    let s3 = troubled_row(s2, out, name);
    let s4 = refusal(s3, out, number, place);
    sink::put(s4, out, b"</b></div>\n")
}

// One name more than is taken.
pub fn over_row(s: Sink, out: &mut Buffer) -> Sink {
    sink::put(
        s,
        out,
        b"<div class='t'>more than 10,000 names: no more are read <b>refused 17 at 0</b></div>\n",
    )
}

// Names that cannot be read.
pub fn failed_row(s: Sink, out: &mut Buffer) -> Sink {
    sink::put(
        s,
        out,
        b"<div class='t'>the list of names <b>cannot be read to its end</b></div>\n",
    )
}
