// A module's symbols without some of them: which ones a name marks, how many stay, and whether nothing else changed.
#![tactic(auto)]

mod gone;
mod marks;

pub use gone::other_change;
pub use marks::{mark, staying};
