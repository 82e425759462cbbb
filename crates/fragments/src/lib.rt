// What R lines hold many times: fragments of mode, entry and index.
// A reader takes a line and a place, and answers what stands there with the place behind it, or why and where it came to a halt. Past the end it reads nothing.
#![tactic(auto)]

mod fragments;

pub use fragments::{fragment_at, next_index, parse_reloc_frag};
pub use usual_fragment::Fragment;
