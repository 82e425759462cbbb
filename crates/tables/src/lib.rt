// Group one: the rows of areas and symbols, into two lent arrays; refusals 5 and 6.
#![tactic(auto)]

mod group;

pub use group::{Found, Listed, group_one, group_over};
