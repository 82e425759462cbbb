// Bytes joined into a number.
#![tactic(auto)]

mod join;

pub use join::endian_to_number;
