// Tells what changed between two object modules: changes OLDER NEWER.
#![tactic(auto)]

mod told;

use console::{Request, Room};
use host::Host;
use rooms::INPUT_ROOM;

// Compares the first bytes of two rooms.
fn compare<'a>(older: &'a Room, n: usize, newer: &'a Room, m: usize) {
    let mut out = io::large_buffer();
    changes_told::tell(
        &mut out,
        sink::first_bytes(older, n),
        sink::first_bytes(newer, m),
    )
}

// Compares the text of the older module, n bytes of a room, with the one that an argument names.
fn compare_with(rt: &impl Host, older: &Room, n: usize, i: usize) {
    let mut newer = [0u8; INPUT_ROOM];
    match argument_text::fetch(rt, i, &mut newer) {
        Err(_) => {}
        Ok(m) => compare(older, n, &newer, m),
    }
}

// Compares the modules that two arguments name.
fn compare_both(rt: &impl Host, i: usize, j: usize) {
    let mut older = [0u8; INPUT_ROOM];
    match argument_text::fetch(rt, i, &mut older) {
        Err(_) => {}
        Ok(n) => compare_with(rt, &older, n, j),
    }
}

// Whether the arguments are two names, and perhaps a `--`, before which the options end.
fn names_two(end: usize, count: usize) -> bool {
    if end == count {
        return count == 3;
    }
    count == 4
}

fn main(rt: HostRuntime) {
    let count = host::argument_count(&rt);
    match console::asked(&rt, count) {
        Request::Help => told::help(),
        Request::Unknown(i) => told::unknown(&rt, i),
        Request::Work(end) => {
            let i = if end == 1 { 2 } else { 1 };
            let j = if end <= 2 { 3 } else { 2 };
            if names_two(end, count) {
                compare_both(&rt, i, j)
            } else {
                told::usage()
            }
        }
    }
}
