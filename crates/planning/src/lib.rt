// What is done with a pair of group two before it is placed; refusals 7 and 8.
#![tactic(auto)]

mod next;

pub use next::plan_of;
