// Places the code of an object module at chosen addresses: place_at [-b] area ID ADDRESS .. symbol NAME ADDRESS .., with the module on standard input.
#![tactic(auto)]

mod module;
mod told;

use console::Room;
use host::Host;
use module::Asked;
use rooms::INPUT_ROOM;
use std::env::Env;

// What the first argument asks for.
#[derive(Clone, Copy)]
enum First {
    Help,
    Raw,
    Lines,
}

// What a word asks for.
fn first_of(word: &[u8]) -> First {
    if help_word::asks_help(word) {
        return First::Help;
    }
    match word {
        b"-b" => First::Raw,
        _ => First::Lines,
    }
}

// What the first argument asks for; without one the lines.
fn first_word(rt: &impl Env) -> First {
    let mut word = [0u8; 8];
    let n = host::argument_or_none(rt, 1, &mut word);
    first_of(sink::first_bytes(&word, n))
}

// No bytes yet.
fn empty_room() -> Room {
    [0u8; INPUT_ROOM]
}

// Places the module in the first n bytes of the room.
fn place_first(rt: &impl Env, room: &Room, n: usize, asked: Asked) {
    module::place_text(rt, sink::first_bytes(room, n), asked)
}

// Places the module on standard input.
fn place_standard(rt: &impl Host, asked: Asked) {
    let mut room = empty_room();
    match console::fill(&mut rt.reader(), &mut room) {
        Err(why) => console::tell_reason(b"-", why),
        Ok(n) => place_first(rt, &room, n, asked),
    }
}

// Places by the arguments from one on.
fn place(rt: &impl Host, from: usize, raw: bool) {
    let count = host::argument_count(rt);
    if !address_arguments::are_right(rt, from, count) {
        told::usage();
        return;
    }
    place_standard(
        rt,
        Asked {
            from: from,
            count: count,
            raw: raw,
        },
    )
}

fn main(rt: HostRuntime) {
    match first_word(&rt) {
        First::Help => told::help(),
        First::Raw => place(&rt, 2, true),
        First::Lines => place(&rt, 1, false),
    }
}
