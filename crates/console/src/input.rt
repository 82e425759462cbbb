// A whole text out of a reader.
ghost use Rattle.std.specs.Prelude.{length};
ghost use Rattle.bulk.specs.Inputs.{Within};

use host::Failure;
use rooms::INPUT_ROOM;
use std::io::Read;

// One byte more than the longest text, so that a text that is too long is seen to be.
pub type Room = [u8; INPUT_ROOM];

// Reads a text into the whole room.
pub fn fill(reader: &mut impl Read, room: &mut Room) -> Result<usize, Failure>
    ensures { Within result (length room.old) }
{
    bulk::fill(reader, room)
}
