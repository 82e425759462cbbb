// A pattern book written into lent bytes, from a pool of bytes and rows of five numbers: place and length of the name, places of values and masks, size.
#![tactic(auto)]

mod entry;
mod lay;
mod write;

pub use write::write_book;
