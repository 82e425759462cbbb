// Why and where a line of group one is not what was due. A halt is a reason and a place in what was lent.
#![tactic(auto)]

mod group_one;

pub use group_one::entry_halt;

// A reason (1 no digit, 2 over 32 bits, 3 over 255, 4 anything else) and the place where it came up.
#[derive(Clone, Copy)]
pub struct Halt {
    pub reason: u8,
    pub at: usize,
}
