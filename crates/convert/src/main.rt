// Writes an object module of any radix as X: convert, with the module on standard input.
#![tactic(auto)]

mod module;
mod told;

use console::{Request, Room};
use host::Host;
use rooms::INPUT_ROOM;

// Converts the module in the first n bytes of the room.
fn convert_first(room: &Room, n: usize) {
    module::convert_text(sink::first_bytes(room, n))
}

// Converts the module on standard input.
fn convert_standard(rt: &impl Host) {
    let mut room = [0u8; INPUT_ROOM];
    match console::fill(&mut rt.reader(), &mut room) {
        Err(why) => console::tell_reason(b"-", why),
        Ok(n) => convert_first(&room, n),
    }
}

// Whether there is no argument but perhaps a `--`, before which the options end.
fn names_none(end: usize, count: usize) -> bool {
    if end == count {
        return count <= 1;
    }
    count == 2
}

fn main(rt: HostRuntime) {
    let count = host::argument_count(&rt);
    match console::asked(&rt, count) {
        Request::Help => told::help(),
        Request::Unknown(i) => told::unknown(&rt, i),
        Request::Work(end) => {
            if names_none(end, count) {
                convert_standard(&rt)
            } else {
                told::usage()
            }
        }
    }
}
