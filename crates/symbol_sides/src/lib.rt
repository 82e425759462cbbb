// Tests of a symbol of one side against the symbols of the other.
#![tactic(auto)]

mod sides;

pub use sides::{on_one_side, same_value};
