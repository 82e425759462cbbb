// Rows written into a lent text: the header line, the lines of areas and symbols in their order, the lines of pairs.
#![tactic(auto)]

mod all;

pub use all::put_all;
