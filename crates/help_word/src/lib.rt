// The words that ask for help.
#![tactic(auto)]

mod help;

pub use help::asks_help;
