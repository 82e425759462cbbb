// The target of a fixup, as ported.
#![tactic(auto)]

mod answer;
mod ported;

pub use answer::{target, target_in};
