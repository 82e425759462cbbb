// A module's code placed at chosen addresses.
#![tactic(auto)]

mod found;
mod whole;

pub use placed_rows::Placed;
pub use whole::place_code;
