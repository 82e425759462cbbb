// What the arguments ask for.
use crate::shelf::{Pool, Rows, Shelf};
use crate::{list, shelf, told, written};
use console::Operand;
use host::{Failure, Host};
use std::env::Env;

// What an argument before the names is.
#[derive(Clone, Copy)]
enum Word {
    Name,
    Skip,
    Fixups,
    Help,
    End,
    Unknown,
}

// What a word is that begins with a dash.
fn option(word: &[u8]) -> Word {
    match word {
        b"-h" => Word::Help,
        b"--help" => Word::Help,
        b"--skip" => Word::Skip,
        b"--fixups" => Word::Fixups,
        b"--as" => Word::Name,
        b"--" => Word::End,
        _ => Word::Unknown,
    }
}

// What an argument is.
fn word_at(rt: &impl Env, i: usize) -> Word {
    let mut word = [0u8; 10];
    let n = host::argument_or_none(rt, i, &mut word);
    if word[0] != b'-' {
        return Word::Name;
    }
    option(sink::first_bytes(&word, n))
}

// Tells of a name that is longer than a file's name can be.
fn long_name(name: &mut [u8], why: Failure) {
    cells::copy_bytes(name, 60, b"..", 2);
    console::tell_reason(sink::first_bytes(name, 62), why)
}

// The file that an argument names, under the name that another gives.
fn shown(
    rt: &impl Host,
    pool: &mut [u8],
    rows: &mut [u32],
    s: Shelf,
    file: &[u8],
    i: usize,
) -> Shelf {
    let mut name = io::buffer();
    match host::argument(rt, i, &mut name) {
        Ok(n) => list::file(rt, pool, rows, s, file, sink::first_bytes(&name, n)),
        Err(why) => {
            long_name(&mut name, why);
            shelf::spoilt(s)
        }
    }
}

// The module that an argument names.
fn operand(rt: &impl Host, pool: &mut [u8], rows: &mut [u32], s: Shelf, o: Operand) -> Shelf {
    let mut file = io::buffer();
    match host::argument(rt, o.file, &mut file) {
        Ok(n) => shown(rt, pool, rows, s, sink::first_bytes(&file, n), o.shown),
        Err(why) => {
            long_name(&mut file, why);
            shelf::spoilt(s)
        }
    }
}

// The modules that the arguments from the i-th on name; behind --, which stands before the first, none is an option.
fn operands(
    rt: &impl Host,
    pool: &mut [u8],
    rows: &mut [u32],
    s: Shelf,
    first: usize,
    end: usize,
    count: usize,
) -> Shelf {
    let mut now = s;
    let mut i = first;
    while i < count {
        let o = console::operand_at(rt, i, end);
        now = operand(rt, pool, rows, now, o);
        i = sink::end_of(i + 1, o.more, count);
    }
    now
}

// The modules that are named, and their book.
fn work(rt: &impl Host, pool: &mut [u8], rows: &mut [u32], asked: Job, count: usize) {
    let first = asked.first;
    let skip = asked.skip;
    let empty = shelf::new(asked.fixups);
    if count <= first {
        let s = list::standard(rt, pool, rows, empty);
        written::write(pool, rows, s, skip);
    } else {
        let s = operands(rt, pool, rows, empty, first, asked.end, count);
        written::write(pool, rows, s, skip);
    }
}

// A book of the arguments from the first on, where the options end, with or without modules that are not whole; or their
// fixups.
#[derive(Clone, Copy)]
struct Job {
    first: usize,
    end: usize,
    skip: bool,
    fixups: bool,
}

// What is asked for: the work; the help; or what is not known.
#[derive(Clone, Copy)]
enum Request {
    Work(Job),
    Help,
    Unknown(usize),
}

// The work on the arguments from one on.
fn work_from(first: usize, end: usize, skip: bool, fixups: bool) -> Request {
    Request::Work(Job {
        first,
        end,
        skip,
        fixups,
    })
}

// What the options before the names ask for.
fn asked(rt: &impl Env, count: usize) -> Request {
    let mut skip = false;
    let mut fixups = false;
    for i in 1..count {
        match word_at(rt, i) {
            Word::Skip => {
                skip = true;
            }
            Word::Fixups => {
                fixups = true;
            }
            Word::End => {
                return work_from(i + 1, 0, skip, fixups);
            }
            Word::Name => {
                return work_from(i, count, skip, fixups);
            }
            Word::Help => {
                return Request::Help;
            }
            Word::Unknown => {
                return Request::Unknown(i);
            }
        }
    }
    work_from(count, count, skip, fixups)
}

// Does what is asked for.
fn answered(rt: &impl Host, pool: &mut [u8], rows: &mut [u32], count: usize) {
    match asked(rt, count) {
        Request::Work(asked) => work(rt, pool, rows, asked, count),
        Request::Help => told::help(),
        Request::Unknown(i) => {
            console::tell_option(rt, i);
            told::usage()
        }
    }
}

// The whole program.
pub(crate) fn run(rt: &impl Host, pool: &mut Pool, rows: &mut Rows) {
    answered(rt, pool, rows, host::argument_count(rt))
}
