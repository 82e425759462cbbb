// Modes for a program in Rust that holds them against the source's.
#![tactic(auto)]

mod classes;
mod steps;
