// The rows of the symbols that stay.
#![tactic(auto)]

mod rows;

pub use rows::keep_rows;
