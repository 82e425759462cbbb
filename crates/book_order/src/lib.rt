// The numbers of given entries in order of their names.
#![tactic(auto)]

mod order;

pub use order::sort_numbers;
