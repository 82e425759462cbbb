// The first symbol of a name, found through an index of the names; for any rows and any text.
#![tactic(auto)]

mod find;
mod hash;
mod index;

pub use find::first_named;
pub use index::index_names;
