// Writes each module that an argument names as X behind its name, or what is answered instead. The stored run has modules of each
// radix and order, whole, cut, without a line end and refused; standard input of `convert` holds only one.
#![tactic(auto)]

use console::Room;
use convert_answer::Converted;
use convert_module::convert;
use host::Host;
use rooms::{INPUT_ROOM, TEXT_ROOM};

// Words and a number.
fn put(words: &[u8], n: usize) {
    io::write_all(host::STDOUT_FILENO, words);
    io::print_decimal(host::STDOUT_FILENO, n as u64);
}

// Writes what is made of a module.
fn show(text: &[u8]) {
    let mut out = [0u8; TEXT_ROOM];
    match convert(text, &mut out) {
        Converted::Refusal { number, place } => {
            put(b"refused ", number as usize);
            put(b" at ", place);
            io::write_all(host::STDOUT_FILENO, b"\n");
        }
        Converted::Stopped {
            place,
            reason,
            halt,
        } => {
            put(b"stopped at ", place);
            put(b" reason ", reason as usize);
            put(b" halt ", halt);
            io::write_all(host::STDOUT_FILENO, b"\n");
        }
        Converted::Bytes { count } => {
            io::write_all(host::STDOUT_FILENO, sink::first_bytes(&out, count));
        }
    }
}

// Writes what is made of the module in the first n bytes of a room.
fn show_first(room: &Room, n: usize) {
    show(sink::first_bytes(room, n))
}

// Writes an argument, then what is made of the module that it names.
fn show_argument(rt: &impl Host, i: usize) {
    let mut name = [0u8; 64];
    let k = host::argument_or_none(rt, i, &mut name);
    io::write_all(host::STDOUT_FILENO, sink::first_bytes(&name, k));
    io::write_all(host::STDOUT_FILENO, b":\n");
    let mut room = [0u8; INPUT_ROOM];
    match argument_text::fetch(rt, i, &mut room) {
        Err(_) => {}
        Ok(n) => show_first(&room, n),
    }
}

// The same of all arguments.
fn show_all(rt: &impl Host, count: usize) {
    for i in 1..count {
        show_argument(rt, i);
    }
}

fn main(rt: HostRuntime) {
    show_all(&rt, host::argument_count(&rt))
}
