// The lines of pairs, written into a lent text.
#![tactic(auto)]

mod pairs;

pub use pairs::put_pairs;
