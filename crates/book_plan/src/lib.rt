// What writing a pattern book will answer, and the sizes of its entries; nothing is changed.
#![tactic(auto)]

mod plan;
mod sizes;

pub use plan::{Refusal, plan_book};
pub use sizes::{body_length, length_in, name_size, values_size};
