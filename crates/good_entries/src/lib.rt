// Whether the rows of areas and symbols can be written: each name, and symbols in the order of their areas.
#![tactic(auto)]

mod entries;

pub use entries::{areas_good, symbols_good};
