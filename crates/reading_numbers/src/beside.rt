// The ended reading's answer as numbers.
ghost use Rattle.std.specs.Prelude.{◌≡◌};
ghost use Rattle.answer.specs.Answer as reads;
ghost use Rattle.counts_of.specs.Told.{told_counted};
ghost use Rattle.ended_answer.specs.Answer as ends;
ghost use Rattle.reading_numbers.specs.Ended.{accepted_ended, ended_numbers, with_halt, word_number};

use crate::{ReadNumbers, counted, refused};
use answer::Counts;
use counts_of::Counted;
use ended_answer::{Answer, Verdict};

// The numbers of a reading; of one that stopped why, 1 to 4, and the place where the line came to a halt; and of an accepted
// one 1 if the H line's counts equal the counted lines, 2 if they do not, 3 if none are told.
#[repr(C)]
#[derive(Clone, Copy)]
pub struct EndedNumbers {
    pub refusal: u32,
    pub finished: u32,
    pub place: usize,
    pub areas: usize,
    pub symbols: usize,
    pub lines: usize,
    pub kept: usize,
    pub positions: usize,
    pub fixups: usize,
    pub reason: u32,
    pub counted: u32,
    pub halt: usize,
}

// A reading's numbers with the halt and the H line's word.
fn with_halt(read: ReadNumbers, reason: u32, halt: usize, counted: u32) -> EndedNumbers
    ensures { result ≡ with_halt read reason halt counted }
{
    EndedNumbers {
        refusal: read.refusal,
        finished: read.finished,
        place: read.place,
        areas: read.areas,
        symbols: read.symbols,
        lines: read.lines,
        kept: read.kept,
        positions: read.positions,
        fixups: read.fixups,
        reason: reason,
        counted: counted,
        halt: halt,
    }
}

// What the H line says, as a number.
fn word_number(counted: Counted) -> u32
    ensures { result ≡ word_number (told_counted counted) }
{
    match counted {
        Counted::Equal => 1,
        Counted::NotEqual => 2,
        Counted::NotTold => 3,
    }
}

// A reason in 32 bits.
fn wide(reason: u8) -> u32
    ensures { result ≡ reason }
{
    reason as u32
}

// The numbers of an accepted text with this verdict and this number for the H line's word.
fn accepted_ended(counts: Counts, verdict: Verdict, word: u32) -> EndedNumbers
    ensures { result ≡ accepted_ended (reads.told_counts counts) (ends.told_verdict verdict) (ends.halt_in verdict) word }
{
    match verdict {
        Verdict::Finished => with_halt(counted(counts, 1, 0), 0, 0, word),
        Verdict::Stopped {
            place,
            reason,
            halt,
        } => with_halt(counted(counts, 0, place), wide(reason), halt, word),
    }
}

// The numbers of the ended reading's answer.
pub fn ended_numbers(answer: Answer) -> EndedNumbers
    ensures { result ≡ ended_numbers (ends.told answer) (ends.told_halt answer) (ends.told_word answer) }
{
    match answer {
        Answer::Refusal { number, place } => with_halt(refused(number, place), 0, 0, 0),
        Answer::Accepted {
            counts,
            verdict,
            counted,
        } => accepted_ended(counts, verdict, word_number(counted)),
    }
}
