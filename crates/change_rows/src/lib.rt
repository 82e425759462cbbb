// A row of the list of changes: its kinds, a row added or only counted, and what the walks over two modules can take.
#![tactic(auto)]

mod kinds;
mod limits;
mod row;
mod side;

pub use kinds::{
    AREA_ONLY_NEW, AREA_ONLY_OLD, FIXUP_ONLY_NEW, FIXUP_ONLY_OLD, POSITION_DIFFERS,
    POSITION_ONLY_NEW, POSITION_ONLY_OLD, SYMBOL_ONLY_NEW, SYMBOL_ONLY_OLD, VALUE_DIFFERS,
};
pub use limits::{few, paired_masks};
pub use row::{Row, put};
pub use side::Side;
