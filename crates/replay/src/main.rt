// Holds both readings to the Rust's recorded answers and prints how many differ. The sample on standard
// input was made by `oracle/compare sample`: generated texts of every kind and with every refusal that a
// text can have, each read by the unchanged Rust; its answer to the part that is ended stands for the
// ended reading. A record is the text's length, then for the plain and for the ended reading the refusal
// or 0, the place or 0 (four bytes each, lowest first) and a sum over verdict, counts and rows (eight
// bytes, 0 for a refusal), then the text.
#![tactic(auto)]

mod record;
mod sum;

use answer::{Accepted, Answer};
use record::Told;
use rooms::{AREA_ROOM, FIXUP_ROOM, IMAGE_ROOM, INPUT_ROOM, SYMBOL_ROOM};

// One byte more than the longest text.
const ROOM: usize = INPUT_ROOM;

// How many answers were held to the recorded ones, and how many were not the same.
#[derive(Clone, Copy)]
struct Tally {
    answers: u64,
    differ: u64,
}

// The text's answer and its rows, by the ended or the plain reading.
fn read(
    ended: bool,
    text: &[u8],
    areas: &mut [u32; AREA_ROOM],
    symbols: &mut [u32; SYMBOL_ROOM],
    values: &mut [u8; IMAGE_ROOM],
    masks: &mut [u8; IMAGE_ROOM],
    fixups: &mut [u32; FIXUP_ROOM],
) -> Answer {
    if ended {
        reading::read_ended(text, areas, symbols, values, masks, fixups)
    } else {
        reading::read_plain(text, areas, symbols, values, masks, fixups)
    }
}

// Whether an answer and its rows are the recorded ones.
fn same(
    answer: Answer,
    told: Told,
    areas: &[u32; AREA_ROOM],
    symbols: &[u32; SYMBOL_ROOM],
    values: &[u8; IMAGE_ROOM],
    masks: &[u8; IMAGE_ROOM],
    fixups: &[u32; FIXUP_ROOM],
) -> bool {
    match answer {
        Err(refusal) => record::refused(told, refusal.number, refusal.place),
        Ok(Accepted { counts, verdict }) => {
            let place = sum::stop(verdict);
            let h = sum::verdict_and_counts(verdict, counts);
            let h1 = sum::area_words(areas, sum::area_numbers(counts.areas), h);
            let h2 = sum::words(symbols, sum::symbol_numbers(counts.symbols), h1);
            let h3 = sum::bytes(values, counts.positions, h2);
            let h4 = sum::bytes(masks, counts.positions, h3);
            let h5 = sum::words(fixups, sum::fixup_numbers(counts.fixups), h4);
            record::accepted(told, place, h5)
        }
    }
}

// Whether the answer to a text is the recorded one.
fn holds(told: Told, ended: bool, text: &[u8]) -> bool {
    let mut areas = [0u32; AREA_ROOM];
    let mut symbols = [0u32; SYMBOL_ROOM];
    let mut values = [0u8; IMAGE_ROOM];
    let mut masks = [0u8; IMAGE_ROOM];
    let mut fixups = [0u32; FIXUP_ROOM];
    let answer = read(
        ended,
        text,
        &mut areas,
        &mut symbols,
        &mut values,
        &mut masks,
        &mut fixups,
    );
    same(answer, told, &areas, &symbols, &values, &masks, &fixups)
}

// One more answer.
fn counted(t: Tally, same: bool) -> Tally {
    Tally {
        answers: t.answers.wrapping_add(1),
        differ: t.differ.wrapping_add(u64::from(!same)),
    }
}

// Holds all records of standard input to what is read. The count of turns, which no sample uses up,
// is there since a proved loop has to end.
fn all(room: &mut [u8]) -> Tally {
    let mut t = Tally {
        answers: 0,
        differ: 0,
    };
    for _ in 0..1000000 {
        let Some(r) = record::next() else {
            return t;
        };
        if record::fill(room, r.length) < r.length {
            return counted(t, false);
        }
        let plain = r.plain;
        let ended = r.ended;
        t = counted(t, holds(plain, false, record::first(room, r.length)));
        t = counted(t, holds(ended, true, record::first(room, r.length)));
    }
    t
}

// The same with the whole room.
fn whole(room: &mut [u8; ROOM]) -> Tally {
    all(room)
}

fn main() {
    let mut room = [0u8; ROOM];
    let t = whole(&mut room);
    io::print_decimal(1, t.answers);
    io::write_all(1, b" answers, ");
    io::print_decimal(1, t.differ);
    io::write_all(1, b" differ\n");
}
