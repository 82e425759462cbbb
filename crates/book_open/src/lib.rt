// A pattern book opened: refusals 21 and 22. All rows are tested for 21 before any is tested for 22.
#![tactic(auto)]

mod closed;
mod open;
mod ordered;

pub use open::{Refusal, open_book};
