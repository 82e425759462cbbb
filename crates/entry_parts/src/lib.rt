// What lines of group one are made of: titles, which are the letter and a name, and the fields of an A line.
// A reader gets the bytes of one line, and answers what stands there with the place behind it, or why and where it came to a halt. Past the end it reads nothing.
#![tactic(auto)]

mod area_fields;
mod parts;
mod usual;

pub use area_fields::{addr_field, flags_field, size_field};
pub use parts::{field_at, title};

// Where a name stands, and how many bytes it has.
#[derive(Clone, Copy)]
pub struct Name {
    pub at: usize,
    pub len: usize,
}
