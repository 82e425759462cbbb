// Why and where the ended reading stopped: the line at the stop, or the two lines there, read once more for what was due. The halt has a place in the text.
#![tactic(auto)]

mod pair;
mod stop;

pub use stop::halt_at;
