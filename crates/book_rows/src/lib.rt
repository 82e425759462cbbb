// What stands in a pattern book, read where it stands: parts, names in their order, numbers and rows of the contents. For any bytes: past the end there is nothing to read.
#![tactic(auto)]

mod name;
mod row;

pub use name::{compare, part_of};
pub use row::{Row, name_at, number_at, place_of, row_at};
