// Whether a name can be written.
#![tactic(auto)]

mod names;

pub use names::name_good;
