// The lines of a reader, one after the other, through two lent rooms. No more than they hold is kept, however long the input is.
#![tactic(auto)]

use host::Failure;
use std::io::Read;

// What was read and is not yet taken.
pub type Block = [u8; 65536];

// A line: one byte more than the longest name, so that a longer one is seen.
pub type Name = [u8; 4096];

// Where the bytes that are not yet taken begin and end in the block.
#[derive(Clone, Copy)]
pub struct Cursor {
    pub at: usize,
    pub end: usize,
}

// A line of so many bytes, at most 4,095; one that is longer, of which the first 4,096 are there; an empty one; the end; or an error.
#[derive(Clone, Copy)]
pub enum Line {
    Name { length: usize, next: Cursor },
    Long { next: Cursor },
    Empty { next: Cursor },
    End,
    Failed(Failure),
}

// A byte, and the cursor behind it.
#[derive(Clone, Copy)]
struct Byte {
    value: u8,
    next: Cursor,
}

// Nothing is read yet.
pub fn start() -> Cursor {
    Cursor { at: 0, end: 0 }
}

// The byte at the cursor.
fn taken(block: &[u8], at: usize, end: usize) -> Byte {
    Byte {
        value: cells::byte_at(block, at),
        next: Cursor {
            at: sink::end_of(at, 1, end),
            end: end,
        },
    }
}

// The next byte, or none at the end; the block is filled again where none is left in it.
fn next_byte(reader: &mut impl Read, block: &mut [u8], c: Cursor) -> Result<Option<Byte>, Failure> {
    if c.at < c.end {
        return Ok(Some(taken(block, c.at, c.end)));
    }
    match bulk::fill(reader, block)? {
        0 => Ok(None),
        n => Ok(Some(taken(block, 0, n))),
    }
}

// A line of n bytes, with the cursor behind it.
fn line_of(n: usize, c: Cursor) -> Line {
    if n == 0 {
        return Line::Empty { next: c };
    }
    if 4095 < n {
        return Line::Long { next: c };
    }
    Line::Name { length: n, next: c }
}

// The last line, which lacks its line end; there is none where it is empty.
fn last(n: usize, c: Cursor) -> Line {
    if n == 0 {
        return Line::End;
    }
    line_of(n, c)
}

// The line at the cursor. The count of turns, which no input uses up, is there since a proved loop has to end.
fn line_in(reader: &mut impl Read, block: &mut [u8], name: &mut [u8], c: Cursor) -> Line {
    let mut now = c;
    let mut n = 0;
    for _ in 0..u64::MAX {
        match next_byte(reader, block, now) {
            Err(why) => return Line::Failed(why),
            Ok(None) => return last(n, now),
            Ok(Some(Byte { value, next })) => {
                now = next;
                if value == b'\n' {
                    return line_of(n, now);
                }
                cells::put(name, n, value);
                n = sink::end_of(n, 1, 4096);
            }
        }
    }
    Line::End
}

// The next line of a reader, its bytes at the start of the name.
pub fn next_line(reader: &mut impl Read, block: &mut Block, name: &mut Name, c: Cursor) -> Line {
    line_in(reader, block, name, c)
}
