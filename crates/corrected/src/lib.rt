// The corrected target of a fixup, which agrees with the processor.
#![tactic(auto)]

mod corrected;

pub use corrected::corrected_target;
