// The report of each module, in a form that is given, and the lines of a report: one for each module, and the totals.
#![tactic(auto)]

mod file;
mod form;
mod module;
mod words;

pub use file::report_file;
pub use form::{Form, Image, Lines, Own, ToldForm};
use sink::Sink;
use totals::Totals;
pub use words::{over, read_line, refused_line, totals_lines};

// What waits to be written, and the totals so far.
#[derive(Clone, Copy)]
pub struct Tally {
    pub sink: Sink,
    pub totals: Totals,
}
