// The classes of modes, one row each.
#![tactic(auto)]

mod row;

pub use row::{Row, get_onsite_size, gives, row_of, touched};
