// Entries given to be written, by a pool of bytes and rows of five numbers: whether they lie in the pool, and whether a name stands twice.
#![tactic(auto)]

mod given;
mod twice;

pub use given::{first_out, given_cell, given_name};
pub use twice::first_twice;
