// The header's line, written into a lent text.
#![tactic(auto)]

mod head;

pub use head::put_head;
