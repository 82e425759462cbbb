// The symbols that fragments refer to.
#![tactic(auto)]

mod fragments;

pub use fragments::{referring, to_symbol};
