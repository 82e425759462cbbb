// A header's form out of the numbers that a program in another language gives.
#![tactic(auto)]

mod form;

pub use form::{form_from, width_from};
