// Numbers of a radix, and bytes, of any length. The readers that read the usual forms at once are those of `quick_numbers`.
// A reader takes a text and a place, and answers the value and the place behind it, or why and where it came to a halt. Past the end it reads nothing.
#![tactic(auto)]

mod numbers;

pub use numbers::{any_byte, any_next, any_number};

// Why a reader came to a halt. As a number each is what the definition calls it.
#[derive(Clone, Copy)]
pub enum Reason {
    NoDigit = 1,
    OverWord,
    OverByte,
    Other,
}

// A reader's halt: why, and at which place.
#[derive(Clone, Copy)]
pub struct Halt {
    pub reason: Reason,
    pub at: usize,
}

// What a reader found, and the place behind it.
#[derive(Clone, Copy)]
pub struct Read<T> {
    pub value: T,
    pub next: usize,
}

// What a reader answers.
pub type Parsed<T> = Result<Read<T>, Halt>;
