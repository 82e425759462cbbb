// What a symbol's row says, and which symbols belong to an area.
#![tactic(auto)]

mod range;
mod symbol;

pub use range::area_symbols;
pub use symbol::{is_ref, symbol_name, symbol_value};
