// Numbers of 64 bits, and what a target reads of a mode and of the bytes on site.
#![tactic(auto)]

mod site;
mod word;

pub use site::{behind, byte_at, has, wide};
pub use word::{add64, shl64, shr64, sub64};
