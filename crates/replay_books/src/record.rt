// Records of the sample.
ghost use Rattle.std.specs.Prelude.{◌^◌, ◌<◌};

// A recorded answer: the name's length; 0 where the file opens, else 21 or 22; how many entries, or the place; 0 or 23 for the name, and where its pattern stands and its size.
#[derive(Clone, Copy)]
pub(crate) struct Case {
    pub(crate) name: usize,
    pub(crate) number: u64,
    pub(crate) place: u64,
    pub(crate) missing: u64,
    pub(crate) at: u64,
    pub(crate) size: u64,
}

// A record: the length of its file and its name together, and the answer.
#[derive(Clone, Copy)]
pub(crate) struct Record {
    pub(crate) length: usize,
    pub(crate) case: Case,
}

fn wide(x: u8) -> u64
    ensures { result < 256 }
{
    x as u64
}

// The byte at i, or 0.
fn byte(b: &[u8], i: usize) -> u64
    ensures { result < 256 }
{
    if i < b.len() { wide(b[i]) } else { 0 }
}

// The number of four bytes, lowest first.
fn word(b: &[u8], at: usize) -> u64
    ensures { result < 2 ^ 32 }
{
    let b1 = byte(b, std::num::wrapping_add_usize(at, 1));
    let b2 = byte(b, std::num::wrapping_add_usize(at, 2));
    let b3 = byte(b, std::num::wrapping_add_usize(at, 3));
    byte(b, at) + b1 * 0x100 + b2 * 0x1_0000 + b3 * 0x100_0000
}

// The same as a place or a count.
fn count(b: &[u8], at: usize) -> usize {
    word(b, at) as usize
}

// The answer in these bytes.
fn case_of(b: &[u8]) -> Case {
    Case {
        name: count(b, 4),
        number: word(b, 8),
        place: word(b, 12),
        missing: word(b, 16),
        at: word(b, 20),
        size: word(b, 24),
    }
}

// The record of these bytes.
fn record_of(b: &[u8]) -> Record {
    Record {
        length: count(b, 0),
        case: case_of(b),
    }
}

// Reads the bytes of a record; answers how many came.
fn head_in(head: &mut [u8; 28]) -> usize {
    io::read_full(0, head)
}

// The next record of standard input, without its bytes; none at the end.
pub(crate) fn next() -> Option<Record> {
    let mut head = [0u8; 28];
    if head_in(&mut head) < 28 {
        return None;
    }
    Some(record_of(&head))
}

// The next n bytes of standard input into the room; answers how many came.
pub(crate) fn fill(room: &mut [u8], n: usize) -> usize {
    if n <= room.len() {
        return io::read_full(0, &mut room[0..n]);
    }
    0
}

// The first n bytes of the room, or all.
pub(crate) fn first(room: &[u8], n: usize) -> &[u8] {
    if n <= room.len() {
        return &room[0..n];
    }
    room
}
