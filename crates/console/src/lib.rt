// What every program shares: a text out of a reader, arguments, and complaints on standard error.
#![tactic(auto)]

mod arguments;
mod complaint;
mod input;

pub use arguments::{Operand, Request, asked, asked_from, asks_why, operand_at};
pub use complaint::{
    complain, tell, tell_number, tell_option, tell_place, tell_reason, tell_refused, tell_stopped,
    tell_words,
};
pub use input::{Room, fill};
