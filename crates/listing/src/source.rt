// Where texts come from: standard input, which is called `-`, and files by name.
use crate::how::How;
use crate::module;
use console::Room;
use host::{Failure, Host};
use rooms::INPUT_ROOM;
use sink::{Buffer, Sink};
use std::io::Read;

// Lists the first n bytes of the room.
fn list_first(how: How, s: Sink, out: &mut Buffer, room: &Room, n: usize, name: &[u8]) -> Sink {
    module::list(how, s, out, sink::first_bytes(room, n), name)
}

// The line with a module's name, over its listing.
fn title(s: Sink, out: &mut Buffer, name: &[u8], titled: bool) -> Sink {
    if titled {
        let named = texts::name(s, out, name);
        return sink::put(named, out, b":\n");
    }
    s
}

// Lists the text that a reader gives.
fn list_input(
    reader: &mut impl Read,
    how: How,
    s: Sink,
    out: &mut Buffer,
    name: &[u8],
    titled: bool,
) -> Sink {
    let mut room = [0u8; INPUT_ROOM];
    match console::fill(reader, &mut room) {
        Err(why) => console::complain(s, out, name, why),
        Ok(n) => {
            let t = title(s, out, name, titled);
            list_first(how, t, out, &room, n, name)
        }
    }
}

// Lists the module on standard input.
pub(crate) fn list_standard(rt: &impl Host, how: How, s: Sink, out: &mut Buffer) -> Sink {
    list_input(&mut rt.reader(), how, s, out, b"-", false)
}

// Whether a file's name stands for standard input.
fn is_standard(file: &[u8]) -> bool {
    matches!(file, b"-")
}

// Tells why a file cannot be opened.
fn unopened(s: Sink, out: &Buffer, name: &[u8], why: Failure) -> Sink {
    if name.is_empty() {
        return console::complain(s, out, b"(empty name)", why);
    }
    console::complain(s, out, name, why)
}

// Lists the module of a file under a line with a name.
pub(crate) fn list_file(
    rt: &impl Host,
    how: How,
    s: Sink,
    out: &mut Buffer,
    file: &[u8],
    name: &[u8],
) -> Sink {
    if is_standard(file) {
        return list_input(&mut rt.reader(), how, s, out, name, true);
    }
    match host::open(rt, file) {
        Ok(mut opened) => list_input(&mut opened, how, s, out, name, true),
        Err(why) => unopened(s, out, name, why),
    }
}
