// The fixups of a module as a lent slice of records: made of the flat rows, and listed one by one.
#![tactic(auto)]

mod line;
mod list;

pub use list::tell_fixups;
