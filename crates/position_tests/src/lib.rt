// Tests of the positions of two images.
#![tactic(auto)]

mod tests;

pub use tests::{Cell, longer, same_cell};
