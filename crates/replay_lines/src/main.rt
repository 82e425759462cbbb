// Replays what the unchanged Rust's parser functions answer about texts and lines, and counts the answers of the port that differ.
// The sample in `stdin` was recorded from the Rust by `oracle/lines/lines sample`: seeded numbers and byte lists, lines of generated modules,
// and lines of real modules, whole, cut, and with one byte changed. A line of it is one case, its numbers in hex:
// reader, radix, order, address length, whether the Rust reads the text, the bytes used, five values, and the text's bytes.
#![tactic(auto)]

mod answers;
mod cases;
mod sums;

use rooms::{INPUT_ROOM, TEXT_ROOM};

// Whether a text is read, the bytes used, and five values; all 0 where it is not read.
#[derive(Clone, Copy, Default, PartialEq, Eq)]
pub struct Answer {
    pub taken: u64,
    pub used: u64,
    pub first: u64,
    pub second: u64,
    pub third: u64,
    pub fourth: u64,
    pub fifth: u64,
}

// How many cases there were, and how many of them differ.
#[derive(Clone, Copy)]
pub struct Counts {
    pub cases: usize,
    pub differ: usize,
}

// Tells how many answers there were and how many differ.
fn show(counts: Counts) {
    io::print_decimal(1, counts.cases as u64);
    io::write_all(1, b" answers, ");
    io::print_decimal(1, counts.differ as u64);
    io::write_all(1, b" differ\n");
}

fn main() {
    let mut text = [0u8; INPUT_ROOM];
    let n = io::read_full(0, &mut text);
    if TEXT_ROOM < n {
        io::write_all(1, b"the sample is too long\n");
        return;
    }
    show(cases::replay(&text[..n]));
}
