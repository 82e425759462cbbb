// Modes: the class of each.
#![tactic(auto)]

mod bits;
mod class;
mod classes;

pub use bits::class_of;
pub use class::{JumpType, class_in, class_number, class_table, get_jump_type};
