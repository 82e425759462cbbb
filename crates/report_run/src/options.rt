// What the program's arguments ask for.
use crate::help;
use crate::names::named;
use host::Host;
use sink::{Buffer, Sink};
use std::env::Env;

// What is asked for: the report, with a second line for each name or not and as a page or not; the help; or what is not known, by the argument's number.
#[derive(Clone, Copy)]
enum Request {
    Work { pairs: bool, page: bool },
    Help,
    Unknown(usize),
}

// What an argument is.
#[derive(Clone, Copy)]
enum Word {
    Pairs,
    Page,
    Help,
    Unknown,
}

// What a word is.
fn word_of(word: &[u8]) -> Word {
    match word {
        b"--named" => Word::Pairs,
        b"--page" => Word::Page,
        _ if help_word::asks_help(word) => Word::Help,
        _ => Word::Unknown,
    }
}

// What an argument is.
fn word_at(rt: &impl Env, i: usize) -> Word {
    let mut room = [0u8; 8];
    let n = host::argument_or_none(rt, i, &mut room);
    word_of(&room[..n])
}

// What the arguments ask for: the first that is not known, or that asks for help, decides.
fn asked(rt: &impl Env, count: usize) -> Request {
    let mut pairs = false;
    let mut page = false;
    for i in 1..count {
        match word_at(rt, i) {
            Word::Pairs => pairs = true,
            Word::Page => page = true,
            Word::Help => return Request::Help,
            Word::Unknown => return Request::Unknown(i),
        }
    }
    Request::Work {
        pairs: pairs,
        page: page,
    }
}

// The report.
fn work(rt: &impl Host, out: &mut Buffer, pairs: bool) {
    let tally = named(rt, sink::new(), out, pairs, false);
    let s = tally.sink;
    let t = tally.totals;
    written(report_lines::totals_lines(s, out, t), out)
}

// The report as a page.
fn work_page(rt: &impl Host, out: &mut Buffer, pairs: bool) {
    let begun = report_page::starting(sink::new(), out);
    let tally = named(rt, begun, out, pairs, true);
    let s = tally.sink;
    let t = tally.totals;
    written(report_page::ending(s, out, t), out)
}

// The report as it is asked for.
fn work_as(rt: &impl Host, out: &mut Buffer, pairs: bool, page: bool) {
    if page {
        work_page(rt, out, pairs);
        return;
    }
    work(rt, out, pairs)
}

// Writes what still waits.
fn written(s: Sink, out: &Buffer) {
    sink::flush(s, out);
}

// The whole program.
pub fn run(rt: &impl Host) {
    let mut out = io::large_buffer();
    match asked(rt, host::argument_count(rt)) {
        Request::Work { pairs, page } => work_as(rt, &mut out, pairs, page),
        Request::Help => help::help(),
        Request::Unknown(i) => help::tell_unknown(rt, i),
    }
}
