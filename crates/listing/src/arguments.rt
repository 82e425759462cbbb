// What the program's arguments ask for.
use crate::how::How;
use crate::{help, source};
use console::{Operand, Request};
use host::{Failure, Host};
use sink::{Buffer, Sink};

// Tells of a name that no file can have: how it begins, and why.
fn too_long(s: Sink, out: &Buffer, name: &mut [u8], why: Failure) -> Sink {
    cells::copy_bytes(name, 60, b"..", 2);
    console::complain(s, out, sink::first_bytes(name, 62), why)
}

// Lists a file under the name that an argument gives.
fn list_shown(
    rt: &impl Host,
    how: How,
    s: Sink,
    out: &mut Buffer,
    file: &[u8],
    shown: usize,
) -> Sink {
    let mut name = io::buffer();
    match host::argument(rt, shown, &mut name) {
        Ok(n) => source::list_file(rt, how, s, out, file, sink::first_bytes(&name, n)),
        Err(why) => too_long(s, out, &mut name, why),
    }
}

// Lists the file that an argument names, under its own or another argument's name.
fn list_operand(rt: &impl Host, how: How, s: Sink, out: &mut Buffer, operand: Operand) -> Sink {
    if s.broken {
        return s;
    }
    let mut file = io::buffer();
    match host::argument(rt, operand.file, &mut file) {
        Ok(n) => list_shown(rt, how, s, out, sink::first_bytes(&file, n), operand.shown),
        Err(why) => too_long(s, out, &mut file, why),
    }
}

// Lists what an argument names; the one at which the options end names nothing.
fn list_argument(
    rt: &impl Host,
    how: How,
    s: Sink,
    out: &mut Buffer,
    operand: Operand,
    i: usize,
    end: usize,
) -> Sink {
    if i == end {
        return s;
    }
    list_operand(rt, how, s, out, operand)
}

// Lists the files that the arguments from one on name, one after the other.
fn list_arguments(
    rt: &impl Host,
    how: How,
    s: Sink,
    out: &mut Buffer,
    first: usize,
    end: usize,
    count: usize,
) -> Sink {
    let mut now = s;
    let mut i = first;
    while i < count {
        let operand = console::operand_at(rt, i, end);
        now = list_argument(rt, how, now, out, operand, i, end);
        i = sink::end_of(i + 1, operand.more, count);
    }
    now
}

// Whether the arguments from one on name nothing; the options end before argument `end`.
fn names_nothing(first: usize, end: usize, count: usize) -> bool {
    count <= first || count - first == 1 && end == first
}

// Lists by the arguments, or standard input where they name nothing.
fn list(
    rt: &impl Host,
    how: How,
    s: Sink,
    out: &mut Buffer,
    first: usize,
    end: usize,
    count: usize,
) -> Sink {
    if names_nothing(first, end, count) {
        return source::list_standard(rt, how, s, out);
    }
    list_arguments(rt, how, s, out, first, end, count)
}

// Does what the arguments from one on ask for, and writes what still waits then.
fn answered(rt: &impl Host, how: How, out: &mut Buffer, first: usize, count: usize) {
    match console::asked_from(rt, first, count) {
        Request::Work(end) => written(list(rt, how, sink::new(), out, first, end, count), out),
        Request::Help => help::help(how.ended),
        Request::Unknown(i) => help::tell_unknown(rt, how.ended, i),
    }
}

// Writes what still waits.
fn written(s: Sink, out: &Buffer) {
    sink::flush(s, out);
}

// The whole program. Only the ended reading knows why it stopped.
pub(crate) fn run(rt: &impl Host, ended: bool) {
    let mut out = io::large_buffer();
    let count = host::argument_count(rt);
    let why = ended && console::asks_why(rt, count);
    let first = if why { 2 } else { 1 };
    let how = How {
        ended: ended,
        why: why,
    };
    answered(rt, how, &mut out, first, count)
}
