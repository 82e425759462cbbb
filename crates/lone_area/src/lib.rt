// The row of an area that one side only has.
#![tactic(auto)]

mod lone;

pub use lone::{only_new, only_old};
