// The report as one page that stands by itself: no script, no other file. Modules are told as they are read; the page's style puts the heading with the
// totals first, then what needs a person, then all modules.
#![tactic(auto)]

mod page;
mod style;

pub use page::ending;
pub use style::starting;
