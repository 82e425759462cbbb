// The system as the programs meet it: their arguments, files by name, the streams' numbers, and why a call failed.
#![tactic(auto)]

mod arguments;
mod failure;
mod files;

pub use arguments::{argument, argument_count, argument_or_none};
pub use failure::{Failure, last_failure, of_error, tell_failure};
pub use files::open;
use std::env::Env;
use std::rt::Files;

// The numbers of the streams that `io` writes to.
pub const STDOUT_FILENO: i32 = 1;

pub const STDERR_FILENO: i32 = 2;

// What a program asks of the system that takes arguments and reads modules, from files and from standard input.
pub trait Host: Env + Files + Input {}

impl<R: Env + Files + Input> Host for R {}
