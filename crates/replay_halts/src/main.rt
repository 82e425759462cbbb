// Holds the halt and the H line's counts to recorded answers and prints how many differ. The sample on standard input was made by
// `oracle/halts/halts sample 1`: damaged lines and texts of every class, told by a second writing of the rules and not by the proved code.
#![tactic(auto)]

mod record;

use counts_of::Counted;
use header::{Form, Head};
use record::Case;
use rooms::INPUT_ROOM;

// One byte more than the longest text.
const ROOM: usize = INPUT_ROOM;

// How many answers were held to the recorded ones, and how many were not the same.
#[derive(Clone, Copy)]
struct Tally {
    answers: u64,
    differ: u64,
}

// 1 equal, 2 not equal, 3 not told.
fn number_of(c: Counted) -> u64 {
    match c {
        Counted::Equal => 1,
        Counted::NotEqual => 2,
        Counted::NotTold => 3,
    }
}

// Whether the halt at the stop is the recorded one; a finished reading has none.
fn same_halt(text: &[u8], head: usize, form: Form, c: Case) -> bool {
    if c.reason == 0 {
        return c.stop == text.len();
    }
    let end = counts_of::group_one_end(text, head, form);
    let h = halt_of::halt_at(text, c.stop, form, end < c.stop);
    h.reason as u64 == c.reason && h.at as u64 == c.place
}

// Whether the H line says of the counted lines what is recorded.
fn same_counts(text: &[u8], head: usize, form: Form, c: Case) -> bool {
    let counted = counts_of::told_counts(text, head, form, c.areas, c.symbols);
    number_of(counted) == c.counts
}

// Whether both are the recorded ones.
fn holds(text: &[u8], c: Case) -> bool {
    let Head::Found { form, next } = header::format_spec(text) else {
        return false;
    };
    let e = scan::line_ending(text, next);
    if e == 0 {
        return false;
    }
    let head = next.wrapping_add(e);
    if !same_halt(text, head, form, c) {
        return false;
    }
    same_counts(text, head, form, c)
}

// One more answer.
fn counted(t: Tally, same: bool) -> Tally {
    Tally {
        answers: t.answers.wrapping_add(1),
        differ: t.differ.wrapping_add(u64::from(!same)),
    }
}

// Holds all records of standard input to what is answered. The count of turns, which no sample uses up,
// is there since a proved loop has to end.
fn all(room: &mut [u8]) -> Tally {
    let mut t = Tally {
        answers: 0,
        differ: 0,
    };
    for _ in 0..100000000 {
        let Some(r) = record::next() else {
            return t;
        };
        let c = r.case;
        if record::fill(room, r.length) < r.length {
            return counted(t, false);
        }
        t = counted(t, holds(record::first(room, r.length), c));
    }
    t
}

// The same with the whole room.
fn whole(room: &mut [u8; ROOM]) -> Tally {
    all(room)
}

fn main() {
    let mut room = [0u8; ROOM];
    let t = whole(&mut room);
    io::print_decimal(1, t.answers);
    io::write_all(1, b" answers, ");
    io::print_decimal(1, t.differ);
    io::write_all(1, b" differ\n");
}
