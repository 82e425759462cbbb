// Why a call of the system failed.
use crate::STDERR_FILENO;
use std::io::{Cursor, Error, ErrorKind, Write};

// The number that the system gives to the cause: errno.
#[derive(Clone, Copy)]
pub struct Failure {
    pub code: i32,
}

// Causes that come from no call: one that cannot be told, an argument that is not there or no file's name, one that is too long, and
// one that is no UTF-8, which std cannot open.
const INPUT_OUTPUT: i32 = 5;

pub(crate) const INVALID: i32 = 22;

pub(crate) const TOO_LONG: i32 = 36;

pub(crate) const NO_TEXT: i32 = 84;

// Why the last call failed, for one whose answer does not say it, such as `io::write_all`.
pub fn last_failure() -> Failure {
    of_error(&std_io::io::last_error())
}

// Why a call of std failed. A name with a NUL in it never came to the system: the argument is not valid.
pub fn of_error(e: &Error) -> Failure {
    let code = match e.raw_os_error() {
        Some(code) => code,
        None if e.kind() == ErrorKind::InvalidInput => INVALID,
        None => INPUT_OUTPUT,
    };
    Failure { code: code }
}

// The words for an error that stand before its number in brackets.
fn words(text: &str) -> &str {
    match text.split_once(" (os error ") {
        Some((before, _)) => before,
        None => text,
    }
}

// The first n bytes as text; none are cut off where all are.
fn text_of(bytes: &[u8], n: usize) -> &str {
    match bytes.get(..n) {
        Some(part) => std::str::from_utf8(part).unwrap_or(""),
        None => "",
    }
}

// Puts an error's text at the start of a room, and answers how long it is.
fn put_text(e: Error, room: &mut [u8]) -> usize {
    let n = room.len();
    let mut cursor = Cursor::new(room);
    match write!(cursor, "{e}") {
        Ok(()) => cursor.position() as usize,
        Err(_) => n,
    }
}

// Writes a line to standard error: what failed, as the caller names it, a colon and why, in the system's words.
pub fn tell_failure(what: &[u8], why: Failure) {
    let mut room = [0u8; 128];
    let n = put_text(Error::from_raw_os_error(why.code), &mut room);
    io::write_all(STDERR_FILENO, what);
    io::write_all(STDERR_FILENO, b": ");
    io::write_all(STDERR_FILENO, words(text_of(&room, n)).as_bytes());
    io::write_all(STDERR_FILENO, b"\n");
}
