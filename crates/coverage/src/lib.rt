// Which positions of the kept areas of a text no line writes: how many there are, and a lent map of all positions.
#![tactic(auto)]

mod pair;
mod rows;
mod whole;

pub use whole::cover;

// A refusal with its number and place; or how many positions there are, and how many of them no line writes.
#[derive(Clone, Copy)]
pub enum Covered {
    Refused { number: u32, place: usize },
    Told { positions: usize, unwritten: usize },
}
