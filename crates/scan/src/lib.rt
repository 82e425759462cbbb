// What stands in a text before any number is read: kinds of bytes, fixed words, and line ends.
// A reader takes a text and a place, and answers the place behind what it found. Past the end it finds nothing.
#![tactic(auto)]

mod kinds;
mod lines;
mod words;

pub use kinds::{byte_at, past_kind};
pub use lines::line_ending;
pub use words::past_word;

// The kinds of bytes that runs are made of: blanks; blanks, CR and LF; what a name may hold; what a line may hold.
#[derive(Clone, Copy)]
pub enum Kind {
    Blank,
    White,
    InName,
    InLine,
}
