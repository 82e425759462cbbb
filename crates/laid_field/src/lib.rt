// One fragment's bytes, laid over a pair's content.
#![tactic(auto)]

mod field;

pub use field::lay_field;
