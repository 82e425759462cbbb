// The program's arguments, as bytes, which need not be text.
ghost use Rattle.std.specs.Prelude.{◌≤◌, length};
ghost use Rattle.std.specs.Io.{WritesAtMost};

use crate::failure::{Failure, INVALID, TOO_LONG};
use std::env::{Env, FillError};

// Puts argument i at the start of a room, and answers its length; one that is longer than the room leaves its first bytes there.
pub fn argument(rt: &impl Env, i: usize, room: &mut [u8]) -> Result<usize, Failure>
    ensures { WritesAtMost result room.new }
{
    match rt.arg(i, room) {
        Ok(n) => Ok(n),
        Err(FillError::NotPresent) => Err(Failure { code: INVALID }),
        Err(FillError::TooLong) => Err(Failure { code: TOO_LONG }),
    }
}

// The same; it answers 0 where the argument is missing or longer than the room.
pub fn argument_or_none(rt: &impl Env, i: usize, room: &mut [u8]) -> usize
    ensures { result ≤ length room.new }
{
    rt.arg(i, room).unwrap_or(0)
}

// Whether there is an argument i.
fn is_there(rt: &impl Env, i: usize) -> bool {
    !matches!(rt.arg(i, &mut []), Err(FillError::NotPresent))
}

// How many arguments the program was started with, its own name among them.
pub fn argument_count(rt: &impl Env) -> usize {
    for i in 0..usize::MAX {
        if !is_there(rt, i) {
            return i;
        }
    }
    usize::MAX
}
