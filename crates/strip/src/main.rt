// Takes symbols out of an object module: strip [--] NAME..., with the module on standard input.
#![tactic(auto)]

mod module;
mod names;
mod told;

use console::{Request, Room};
use host::Host;
use module::Asked;
use rooms::INPUT_ROOM;
use std::env::Env;

// Strips the module in the first n bytes of the room.
fn strip_first(rt: &impl Env, room: &Room, n: usize, asked: Asked) {
    module::strip_text(rt, sink::first_bytes(room, n), asked)
}

// Strips the module on standard input.
fn strip_standard(rt: &impl Host, asked: Asked) {
    let mut room = [0u8; INPUT_ROOM];
    match console::fill(&mut rt.reader(), &mut room) {
        Err(why) => console::tell_reason(b"-", why),
        Ok(n) => strip_first(rt, &room, n, asked),
    }
}

fn main(rt: HostRuntime) {
    let count = host::argument_count(&rt);
    match console::asked(&rt, count) {
        Request::Help => told::help(),
        Request::Unknown(i) => told::unknown(&rt, i),
        Request::Work(end) => strip_standard(&rt, Asked { end, count }),
    }
}
