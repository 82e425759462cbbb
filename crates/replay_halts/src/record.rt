// Records of the sample.
ghost use Rattle.std.specs.Prelude.{◌^◌, ◌<◌};

// A recorded answer: the stop, the reason (0 where the reading is finished) and the halt's place, the counted A and S lines, and what the H line says.
#[derive(Clone, Copy)]
pub(crate) struct Case {
    pub(crate) stop: usize,
    pub(crate) reason: u64,
    pub(crate) place: u64,
    pub(crate) areas: usize,
    pub(crate) symbols: usize,
    pub(crate) counts: u64,
}

// A record: its text's length, and the answer.
#[derive(Clone, Copy)]
pub(crate) struct Record {
    pub(crate) length: usize,
    pub(crate) case: Case,
}

// The byte at i, or 0.
fn byte(b: &[u8], i: usize) -> u64
    ensures { result < 256 }
{
    if i < b.len() { u64::from(b[i]) } else { 0 }
}

// The number of four bytes, lowest first.
fn word(b: &[u8], at: usize) -> u64
    ensures { result < 2 ^ 32 }
{
    let b1 = byte(b, at.wrapping_add(1));
    let b2 = byte(b, at.wrapping_add(2));
    let b3 = byte(b, at.wrapping_add(3));
    byte(b, at) + (b1 << 8) + (b2 << 16) + (b3 << 24)
}

// The same as a place or a count.
fn count(b: &[u8], at: usize) -> usize {
    word(b, at) as usize
}

// The answer in these bytes.
fn case_of(b: &[u8]) -> Case {
    Case {
        stop: count(b, 4),
        reason: word(b, 8),
        place: word(b, 12),
        areas: count(b, 16),
        symbols: count(b, 20),
        counts: word(b, 24),
    }
}

// The record of these bytes.
fn record_of(b: &[u8; 28]) -> Record {
    let c = case_of(b);
    Record {
        length: count(b, 0),
        case: c,
    }
}

// Reads the bytes of a record; answers how many came.
fn head_in(head: &mut [u8; 28]) -> usize {
    io::read_full(0, head)
}

// The next record of standard input, without its text, if all its bytes are there.
pub(crate) fn next() -> Option<Record> {
    let mut head = [0u8; 28];
    if head_in(&mut head) < 28 {
        return None;
    }
    Some(record_of(&head))
}

// The next n bytes of standard input into the room; answers how many came.
pub(crate) fn fill(room: &mut [u8], n: usize) -> usize {
    if n <= room.len() {
        return io::read_full(0, &mut room[0..n]);
    }
    0
}

// The first n bytes of the room, or all.
pub(crate) fn first(room: &[u8], n: usize) -> &[u8] {
    if n <= room.len() {
        return &room[0..n];
    }
    room
}
