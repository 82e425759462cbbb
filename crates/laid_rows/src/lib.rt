// T and R pairs, out of the rows of records, laid over a lent buffer at chosen addresses.
#![tactic(auto)]

mod fragments;
mod pair;
mod pairs;
mod span;

pub use pairs::lay_pairs;
