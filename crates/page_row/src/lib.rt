// What the page of a report says of a module: its row with a bar, and a line for each that needs a person.
#![tactic(auto)]

mod bar;
mod row;

pub use row::{failed_row, over_row, read_row, refused_row};
