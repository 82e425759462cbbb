// The mode step: what a fragment does to its part of the work line.
#![tactic(auto)]

mod step;

pub use step::modify_cmf_to_fixup;
