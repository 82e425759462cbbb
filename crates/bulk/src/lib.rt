// All bytes of a reader into a lent room of any length.
#![tactic(auto)]

ghost use Rattle.std.specs.Prelude.{length};
ghost use Rattle.bulk.specs.Inputs.{Within};

use host::Failure;
use std::io::{ErrorKind, Read};

// Reads once, and answers how many bytes came, or none at the end. A read that a signal broke off gives no bytes and is no error.
fn read_once(reader: &mut impl Read, room: &mut [u8]) -> Result<Option<usize>, Failure> {
    match reader.read(room) {
        Ok(0) => Ok(None),
        Ok(n) => Ok(Some(n)),
        Err(e) if e.kind() == ErrorKind::Interrupted => Ok(Some(0)),
        Err(e) => Err(host::of_error(&e)),
    }
}

// Reads from a place of the room on; a full room is the end too.
fn read_from(reader: &mut impl Read, room: &mut [u8], at: usize) -> Result<Option<usize>, Failure> {
    if room.len() <= at {
        return Ok(None);
    }
    read_once(reader, &mut room[at..])
}

// Reads to the end of the input or of the room, and answers how many bytes came. The count of turns, which no input
// uses up, is there since a proved loop has to end.
pub fn fill(reader: &mut impl Read, room: &mut [u8]) -> Result<usize, Failure>
    ensures { Within result (length room.old) }
{
    let mut n = 0;
    for _ in 0..u64::MAX {
        match read_from(reader, room, n)? {
            Some(more) => n = sink::end_of(n, more, room.len()),
            None => return Ok(n),
        }
    }
    Ok(n)
}
