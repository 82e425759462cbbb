// The lines of group two, T and R, one reader each. A reader gets the bytes of one line, with no CR or LF among them,
// and answers what the line says with the bytes used, or why and where it came to a halt. Places are places in the line.
#![tactic(auto)]

mod content;
mod relocations;
mod usual;

pub use content::{Content, parse_content, whole_content};
pub use relocations::{Relocation, area_part, parse_reloc_line};
