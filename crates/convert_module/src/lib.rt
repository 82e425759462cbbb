// A module of any radix written as X into a lent buffer: request [6]. It goes over only if each record was ended and no byte is left over.
#![tactic(auto)]

mod kept;
mod stop;
mod whole;

pub use whole::convert;
