// Whether the rows of pairs can be written: each number, and each part that they point to.
#![tactic(auto)]

mod pairs;

pub use pairs::pairs_good;
