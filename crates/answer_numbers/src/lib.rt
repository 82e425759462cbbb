// Answers about headers and targets as numbers, and how much a caller has to lend: an enum cannot cross over to C.
#![tactic(auto)]

mod answers;
mod lent;

pub use answers::{HeaderNumbers, TargetNumbers, header_numbers, target_numbers};
pub use lent::{Rooms, Widths, lent_rooms, row_widths};
