// The fragments' symbol indexes, counted by the symbols that stay.
#![tactic(auto)]

mod indexes;

pub use indexes::count_down;
