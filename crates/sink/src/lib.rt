// Buffered output, and parts of lent bytes.
#![tactic(auto)]

mod output;
mod part;

pub use output::{Buffer, Sink, flush, new, put};
pub use part::{end_of, first_bytes};
