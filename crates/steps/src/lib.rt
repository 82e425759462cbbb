// The two steps of a reading: what the line at a place does to group one, and what the two lines there do to group two. Past the end of the text nothing is taken.
#![tactic(auto)]

mod entry;
mod lines;
mod pair;

pub use entry::{EntryStep, entry_step};
pub use pair::{Body, PairStep, pair_step};
