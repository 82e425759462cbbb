// Files by their names.
use crate::failure::{Failure, INVALID, NO_TEXT, TOO_LONG, of_error};
use std::fs;
use std::rt::Files;

// The most bytes of a name, and one more.
const NAME_ROOM: usize = 4096;

// Why a name that is no UTF-8 cannot be opened.
fn no_text(name: &[u8]) -> Failure {
    if name.contains(&0) {
        return Failure { code: INVALID };
    }
    Failure { code: NO_TEXT }
}

// Opens a file for reading.
pub fn open<R: Files>(rt: &R, name: &[u8]) -> Result<R::File, Failure> {
    if NAME_ROOM <= name.len() {
        return Err(Failure { code: TOO_LONG });
    }
    let Ok(text) = std::str::from_utf8(name) else {
        return Err(no_text(name));
    };
    match fs::open(rt, text) {
        Ok(file) => Ok(file),
        Err(e) => Err(of_error(&e)),
    }
}
