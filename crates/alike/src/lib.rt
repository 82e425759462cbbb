// Whether two names are equal, whether two fixups are, and which of a side's fixups equals one of the other's; for any rows and any text.
#![tactic(auto)]

mod fixup;
mod like;
mod name;

pub use fixup::same_fixup;
pub use like::fixup_like;
pub use name::same_name;
