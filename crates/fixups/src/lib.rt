// The fixup rows of a pair: the walk over its entries, once the check pass has ruled 11 to 13 out.
#![tactic(auto)]

mod next;
mod pass;
mod row;
mod walk;

pub use pass::pair_rows;
