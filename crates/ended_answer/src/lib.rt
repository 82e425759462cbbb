// What the ended reading answers: what document 01 says of a text, why and where a reading that stopped came to a halt, and what
// the H line says of the counts.
#![tactic(auto)]

use answer::Counts;
use counts_of::Counted;

// Finished if no byte is left; else the place of the next byte, and why (1 no digit, 2 over 32 bits, 3 over 255, 4 anything
// else) and where the line there came to a halt.
#[derive(Clone, Copy)]
pub enum Verdict {
    Finished,
    Stopped {
        place: usize,
        reason: u8,
        halt: usize,
    },
}

// A refusal with its number and place, or the counts, the verdict, and whether the H line's counts equal them.
#[derive(Clone, Copy)]
pub enum Answer {
    Refusal {
        number: u32,
        place: usize,
    },
    Accepted {
        counts: Counts,
        verdict: Verdict,
        counted: Counted,
    },
}
