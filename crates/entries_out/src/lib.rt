// The lines of areas and symbols in their order, written into a lent text.
#![tactic(auto)]

mod entries;

pub use entries::put_entries;
