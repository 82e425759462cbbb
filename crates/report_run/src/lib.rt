// The report of a library: names from standard input, one a line; a line for each module, and the totals.
#![tactic(auto)]

mod help;
mod names;
mod options;

pub use options::run;
