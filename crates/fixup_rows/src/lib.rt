// What a fixup's row says, and which fixups belong to an area.
#![tactic(auto)]

mod fixup;
mod range;

pub use fixup::{Fixup, fixup_at, fixup_name};
pub use range::area_fixups;
