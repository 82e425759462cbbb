// The text of the module that an argument names: a file, or standard input, which is called `-`.
#![tactic(auto)]

use console::Room;
use host::{Failure, Host};
use std::io::Read;

// Tells why a file cannot be opened, and answers it.
fn unopened(name: &[u8], why: Failure) -> Failure {
    if name.is_empty() {
        console::tell_reason(b"(empty name)", why);
    } else {
        console::tell_reason(name, why);
    }
    why
}

// The text of a reader; that it cannot be read is told.
fn of_reader(reader: &mut impl Read, name: &[u8], room: &mut Room) -> Result<usize, Failure> {
    let input = console::fill(reader, room);
    if let Err(why) = input {
        console::tell_reason(name, why);
    }
    input
}

// The text of a file.
fn of_file(rt: &impl Host, file: &[u8], room: &mut Room) -> Result<usize, Failure> {
    if matches!(file, b"-") {
        return of_reader(&mut rt.reader(), file, room);
    }
    match host::open(rt, file) {
        Ok(mut opened) => of_reader(&mut opened, file, room),
        Err(why) => Err(unopened(file, why)),
    }
}

// The text that the i-th argument names, at the start of the room; of one that cannot be read standard error is told why.
pub fn fetch(rt: &impl Host, i: usize, room: &mut Room) -> Result<usize, Failure> {
    let mut file = io::buffer();
    match host::argument(rt, i, &mut file) {
        Ok(n) => of_file(rt, sink::first_bytes(&file, n), room),
        Err(why) => {
            cells::copy_bytes(&mut file, 60, b"..", 2);
            Err(unopened(sink::first_bytes(&file, 62), why))
        }
    }
}
