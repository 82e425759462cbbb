// One position of a kept area read by itself, from the last T and R pair back to the first: who wrote it, and what. No image is kept.
#![tactic(auto)]

mod back;
mod pair;
mod told;
mod whole;

pub use whole::explain;
