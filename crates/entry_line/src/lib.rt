// The lines of group one, one reader each. A reader gets the bytes of one line, with no CR or LF among them,
// and answers what the line says with the place behind it, or why and where it came to a halt. Places and names are places in the line.
#![tactic(auto)]

mod areas;
mod entries;
mod symbols;

pub use areas::parse_area;
pub use entries::parse_entry;
pub use symbols::parse_symdefref;

// What a line of group one is. An area has an addr where the line gives one.
#[derive(Clone, Copy)]
pub enum Entry {
    Area {
        name: usize,
        len: usize,
        size: u32,
        flags: u32,
        addr: Option<u32>,
    },
    Symbol {
        name: usize,
        len: usize,
        is_ref: bool,
        value: u32,
    },
    Ignored,
}
