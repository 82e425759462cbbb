// Parts of a lent text or image, the numbers of a row, and rows that stand together; for any rows and any text.
#![tactic(auto)]

mod cell;
mod range;

pub use cell::{area_cell, fixup_cell, part, row_cell, symbol_cell};
pub use range::{Range, same_as};
