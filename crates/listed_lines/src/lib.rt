// The lines of a listing: how it begins, the kept areas with their rows, symbols and fixups, and why a module is not whole.
#![tactic(auto)]

mod area;
mod counts;
mod fixup;
mod symbol;
mod why;

pub use area::area_lines;
pub use counts::{ending_line, refusal_line, summary};
pub use why::{why_refused, why_stopped};
