// The check pass of a pair: 11, 12 and 13 as its walk meets them, before anything is written.
#![tactic(auto)]

mod check;
mod sure;

pub use check::{Fault, check_pair};
