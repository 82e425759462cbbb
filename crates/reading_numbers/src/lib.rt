// A reading's answer as numbers: an enum cannot cross over to C.
#![tactic(auto)]

ghost use Rattle.std.specs.Prelude.{◌≡◌};
ghost use Rattle.answer.specs.Answer as reads;
ghost use Rattle.reading_numbers.specs.Numbers.{accepted_numbers, counted_numbers, read_numbers, refused_numbers};

mod beside;

use answer::{Counts, Verdict};
pub use beside::{EndedNumbers, ended_numbers};

// A reading's answer: a refusal's number and its place; or 0, how much there is, and 1 for finished,
// or 0 and the place of the next byte.
#[repr(C)]
#[derive(Clone, Copy)]
pub struct ReadNumbers {
    pub refusal: u32,
    pub finished: u32,
    pub place: usize,
    pub areas: usize,
    pub symbols: usize,
    pub lines: usize,
    pub kept: usize,
    pub positions: usize,
    pub fixups: usize,
}

// The numbers of an accepted text.
fn counted(counts: Counts, finished: u32, place: usize) -> ReadNumbers
    ensures { result ≡ counted_numbers (reads.told_counts counts) finished place }
{
    ReadNumbers {
        refusal: 0,
        finished: finished,
        place: place,
        areas: counts.areas,
        symbols: counts.symbols,
        lines: counts.lines,
        kept: counts.kept,
        positions: counts.positions,
        fixups: counts.fixups,
    }
}

// The numbers of an accepted text with this verdict.
fn accepted(counts: Counts, verdict: Verdict) -> ReadNumbers
    ensures { result ≡ accepted_numbers (reads.told_counts counts) (reads.told_verdict verdict) }
{
    match verdict {
        Verdict::Finished => counted(counts, 1, 0),
        Verdict::Stopped { place } => counted(counts, 0, place),
    }
}

// The numbers of a refusal.
fn refused(number: u32, place: usize) -> ReadNumbers
    ensures { result ≡ refused_numbers number place }
{
    ReadNumbers {
        refusal: number,
        finished: 0,
        place: place,
        areas: 0,
        symbols: 0,
        lines: 0,
        kept: 0,
        positions: 0,
        fixups: 0,
    }
}

// The numbers of a reading's answer.
pub fn read_numbers(answer: answer::Answer) -> ReadNumbers
    ensures { result ≡ read_numbers (reads.told answer) }
{
    match answer {
        Err(refusal) => refused(refusal.number, refusal.place),
        Ok(told) => accepted(told.counts, told.verdict),
    }
}
