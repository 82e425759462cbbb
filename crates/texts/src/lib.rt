// Words, numbers and names added to what waits to be written: decimal and hex digits, and names shown safely.
#![tactic(auto)]

mod digits;
mod names;

pub use digits::{decimal, hex3, hex4, hex6, hex8};
pub use names::name;
