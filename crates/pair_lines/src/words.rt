// Words of a line by their number, and a mode in words.
use mode::JumpType;
use scan::Kind;
use sink::{Buffer, Sink};

// The place of the word that stands n words behind the one at a place.
pub(crate) fn word_place(text: &[u8], place: usize, n: usize) -> usize {
    let mut at = place;
    for _ in 0..n {
        let end = scan::past_kind(text, at, Kind::InName);
        at = scan::past_kind(text, end, Kind::Blank);
    }
    at
}

// How many words the fragment at a place has: a mode of F0 and above has two, every other one; then its entry, and an index of two.
fn fragment_words(text: &[u8], place: usize, radix: u8) -> usize {
    match quick_numbers::parse_byte(text, place, radix) {
        Ok(n) if 240 <= n.value => 5,
        _ => 4,
    }
}

// The place of the i-th fragment of the R line at a place: behind its letter stand two indexes of two words.
pub(crate) fn fragment_place(text: &[u8], place: usize, i: usize, radix: u8) -> usize {
    let mut at = word_place(text, place, 5);
    for _ in 0..i {
        at = word_place(text, at, fragment_words(text, at, radix));
    }
    at
}

// What a mode writes.
pub(crate) fn mode_words(s: Sink, out: &mut Buffer, mode: u32) -> Sink {
    match mode::class_of(mode) {
        JumpType::Addr24 => sink::put(s, out, b": an address of 24 bits"),
        JumpType::Addr19 => sink::put(
            s,
            out,
            b": an address of 19 bits; the opcode stands behind it and moves to its front",
        ),
        JumpType::Addr16 => sink::put(s, out, b": an address of 16 bits"),
        JumpType::Addr11 => sink::put(
            s,
            out,
            b": an address of 11 bits; the opcode stands behind it and moves to its front",
        ),
        JumpType::Byte => sink::put(s, out, b": one byte"),
        JumpType::Other => sink::put(s, out, b": one byte out of a longer number"),
    }
}
