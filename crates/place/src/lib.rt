// One T and R pair placed in its area's image: its work line, its fixups and its bytes.
#![tactic(auto)]

mod pair;

pub use pair::{Placed, place_pair};
