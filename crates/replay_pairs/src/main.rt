// Holds the rows of T and R records to recorded answers and prints how many differ. The sample on standard input was made by
// `oracle/write/pairs sample 1`: texts of every class, told by a second writing of the rules and not by the proved code.
#![tactic(auto)]

mod record;
mod sums;

use answer::Refusal;
use pair_rows::PairCounts;
use record::Case;
use rooms::{INPUT_ROOM, PAIR_WIDTH};

// One byte more than the longest text.
const ROOM: usize = INPUT_ROOM;

// How many answers were held to the recorded ones, and how many were not the same.
#[derive(Clone, Copy)]
struct Tally {
    answers: u64,
    differ: u64,
}

// Whether there are as many as recorded.
fn same_counts(n: PairCounts, c: Case) -> bool {
    c.number == 0
        && n.pairs as u64 == c.pairs
        && n.content as u64 == c.content
        && n.fragments as u64 == c.fragments
}

// Whether the answer and the sum over all rows are the recorded ones.
fn compare(
    text: &[u8],
    c: Case,
    pairs: &mut [u32],
    content: &mut [u8],
    fragments: &mut [u32],
) -> bool {
    let counts = match records::read_pairs(text, pairs, content, fragments) {
        Ok(counts) => counts,
        Err(refusal) => return refused(refusal, c),
    };
    if !same_counts(counts, c) {
        return false;
    }
    let numbers = counts.pairs.wrapping_mul(PAIR_WIDTH);
    let a = sums::of_numbers(pairs, numbers, 0);
    let b = sums::of_bytes(content, counts.content, a);
    sums::of_numbers(fragments, counts.fragments.wrapping_mul(3), b) == c.sum
}

// Whether a refusal is the recorded one.
fn refused(refusal: Refusal, c: Case) -> bool {
    refusal.number as u64 == c.number && refusal.place as u64 == c.place
}

// The same with buffers of their bounds.
fn holds(text: &[u8], c: Case) -> bool {
    let mut pairs = [0u32; 28672];
    let mut content = [0u8; 32768];
    let mut fragments = [0u32; 24576];
    compare(text, c, &mut pairs, &mut content, &mut fragments)
}

// One more answer.
fn counted(t: Tally, same: bool) -> Tally {
    Tally {
        answers: t.answers.wrapping_add(1),
        differ: t.differ.wrapping_add(u64::from(!same)),
    }
}

// Holds all records of standard input to what is answered. The count of turns, which no sample uses up,
// is there since a proved loop has to end.
fn all(room: &mut [u8]) -> Tally {
    let mut t = Tally {
        answers: 0,
        differ: 0,
    };
    for _ in 0..100000000 {
        let Some(r) = record::next() else {
            return t;
        };
        let c = r.case;
        if record::fill(room, r.length) < r.length {
            return counted(t, false);
        }
        t = counted(t, holds(record::first(room, r.length), c));
    }
    t
}

// The same with the whole room.
fn whole(room: &mut [u8; ROOM]) -> Tally {
    all(room)
}

fn main() {
    let mut room = [0u8; ROOM];
    let t = whole(&mut room);
    io::print_decimal(1, t.answers);
    io::write_all(1, b" answers, ");
    io::print_decimal(1, t.differ);
    io::write_all(1, b" differ\n");
}
