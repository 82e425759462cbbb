// The addresses that the program's arguments choose, three words each: `area ID ADDRESS` for a kept area, `symbol NAME ADDRESS` for an outside symbol.
#![tactic(auto)]

mod given;
mod missing;
mod noted;

pub use given::are_right;
pub use noted::choose;

// An address for each area by its id, and behind 64 of them one for each symbol by its index.
pub type Addresses = [u64; 1088];
