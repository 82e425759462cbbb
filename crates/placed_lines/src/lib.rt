// What is told of placed code: each kept area with its address, its bytes, eight a row, and its fixups with what they refer to and where their bytes lead.
#![tactic(auto)]

mod area;
mod fixup;

pub use area::lines;

// How many areas, symbols and fixups there are, and the header's order.
#[derive(Clone, Copy)]
pub struct Shape {
    pub areas: usize,
    pub symbols: usize,
    pub fixups: usize,
    pub big: bool,
}
