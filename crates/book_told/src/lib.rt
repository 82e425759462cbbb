// What is answered to entries before a book of them is written, and what the lent bytes and numbers hold afterwards.
#![tactic(auto)]

mod plan;

pub use plan::plan_lent;
