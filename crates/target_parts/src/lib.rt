// What the ported and the corrected target of a fixup are made of.
#![tactic(auto)]

mod site;

pub use site::{in_block, near, number_bit, signed_start, start};
