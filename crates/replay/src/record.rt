// Records of the sample.
ghost use Rattle.std.specs.Prelude.{◌^◌, ◌<◌};

// A recorded answer: the refusal or 0, the place or 0, and the sum.
#[derive(Clone, Copy)]
pub(crate) struct Told {
    pub(crate) refusal: u64,
    pub(crate) place: u64,
    pub(crate) sum: u64,
}

// A record: its text's length, and both answers.
#[derive(Clone, Copy)]
pub(crate) struct Record {
    pub(crate) length: usize,
    pub(crate) plain: Told,
    pub(crate) ended: Told,
}

// The byte at i, or 0.
fn byte(b: &[u8], i: usize) -> u64
    ensures { result < 256 }
{
    if i < b.len() { u64::from(b[i]) } else { 0 }
}

// The number of four bytes, lowest first.
fn word(b: &[u8], at: usize) -> u64
    ensures { result < 2 ^ 32 }
{
    let b1 = byte(b, at.wrapping_add(1));
    let b2 = byte(b, at.wrapping_add(2));
    let b3 = byte(b, at.wrapping_add(3));
    byte(b, at) + (b1 << 8) + (b2 << 16) + (b3 << 24)
}

// The answer from a place of these bytes on.
fn told_at(b: &[u8], at: usize) -> Told {
    let low = word(b, at.wrapping_add(8));
    let high = word(b, at.wrapping_add(12));
    Told {
        refusal: word(b, at),
        place: word(b, at.wrapping_add(4)),
        sum: low + (high << 32),
    }
}

// The record of these bytes.
fn record_of(b: &[u8; 36]) -> Record {
    let plain = told_at(b, 4);
    let ended = told_at(b, 20);
    Record {
        length: word(b, 0) as usize,
        plain: plain,
        ended: ended,
    }
}

// Reads the bytes of a record; answers how many came.
fn head_in(head: &mut [u8; 36]) -> usize {
    io::read_full(0, head)
}

// The next record of standard input, without its text, if all its bytes are there.
pub(crate) fn next() -> Option<Record> {
    let mut head = [0u8; 36];
    if head_in(&mut head) < 36 {
        return None;
    }
    Some(record_of(&head))
}

// The next n bytes of standard input into the room; answers how many came.
pub(crate) fn fill(room: &mut [u8], n: usize) -> usize {
    if n <= room.len() {
        return io::read_full(0, &mut room[0..n]);
    }
    0
}

// The first n bytes of the room, or all.
pub(crate) fn first(room: &[u8], n: usize) -> &[u8] {
    if n <= room.len() {
        return &room[0..n];
    }
    room
}

// Whether a refusal is the recorded one.
pub(crate) fn refused(t: Told, number: u32, place: usize) -> bool {
    t.refusal == (number as u64) && t.place == (place as u64) && t.sum == 0
}

// Whether an accepted text's place and sum are the recorded ones.
pub(crate) fn accepted(t: Told, place: u64, sum: u64) -> bool {
    t.refusal == 0 && t.place == place && t.sum == sum
}
