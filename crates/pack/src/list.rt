// Modules by their names: a file of that name, shown under its own or another one.
ghost use Rattle.std.specs.Prelude.{◌<◌, length, IfSome};

use crate::shelf::Shelf;
use crate::{module, shelf};
use console::Room;
use host::Host;
use rooms::INPUT_ROOM;
use std::io::Read;

// How many bytes the names on standard input may have.
const NAMES: usize = 524288;

// A lent room of that length.
type Names = [u8; NAMES];

// The first n bytes of the room, a module.
fn first(
    pool: &mut [u8],
    rows: &mut [u32],
    s: Shelf,
    room: &Room,
    n: usize,
    shown: &[u8],
) -> Shelf {
    module::add(pool, rows, s, sink::first_bytes(room, n), shown)
}

// The module that a reader gives.
fn read(
    reader: &mut impl Read,
    pool: &mut [u8],
    rows: &mut [u32],
    s: Shelf,
    shown: &[u8],
) -> Shelf {
    let mut room = [0u8; INPUT_ROOM];
    match console::fill(reader, &mut room) {
        Err(why) => {
            console::tell_reason(shown, why);
            shelf::spoilt(s)
        }
        Ok(n) => first(pool, rows, s, &room, n, shown),
    }
}

// The module of a file.
pub(crate) fn file(
    rt: &impl Host,
    pool: &mut [u8],
    rows: &mut [u32],
    s: Shelf,
    file: &[u8],
    shown: &[u8],
) -> Shelf {
    match host::open(rt, file) {
        Ok(mut opened) => read(&mut opened, pool, rows, s, shown),
        Err(why) => {
            console::tell_reason(shown, why);
            shelf::spoilt(s)
        }
    }
}

// The module that a line names; an empty line names none.
fn one(rt: &impl Host, pool: &mut [u8], rows: &mut [u32], s: Shelf, name: &[u8]) -> Shelf {
    if name.is_empty() {
        return s;
    }
    file(rt, pool, rows, s, name, name)
}

// Where the first line ends, if there is an end.
fn line_end(names: &[u8]) -> Option<usize>
    ensures { IfSome result (λ n. n < length names.now) }
{
    names.iter().position(|b| *b == b'\n')
}

// The modules that lines name.
fn lines(rt: &impl Host, pool: &mut [u8], rows: &mut [u32], s: Shelf, names: &[u8]) -> Shelf {
    let mut now = s;
    let mut rest = names;
    while let Some(end) = line_end(rest) {
        now = one(rt, pool, rows, now, &rest[..end]);
        rest = &rest[end + 1..];
    }
    one(rt, pool, rows, now, rest)
}

// Room for all names.
fn empty_names() -> Names {
    [0; NAMES]
}

// The modules that standard input names.
pub(crate) fn standard(rt: &impl Host, pool: &mut [u8], rows: &mut [u32], s: Shelf) -> Shelf {
    let mut names = empty_names();
    named(rt, pool, rows, s, &mut names)
}

// The same with the room for all names.
fn named(rt: &impl Host, pool: &mut [u8], rows: &mut [u32], s: Shelf, names: &mut Names) -> Shelf {
    match bulk::fill(&mut rt.reader(), names) {
        Err(why) => {
            console::tell_reason(b"standard input", why);
            shelf::spoilt(s)
        }
        Ok(n) => lines(rt, pool, rows, s, sink::first_bytes(names, n)),
    }
}
