// Refusal 14, and what a target may be asked of. A target is the address that a fixup's bytes refer to, or a refusal.
#![tactic(auto)]

ghost use Rattle.std.specs.Prelude.{◌≡◌};
ghost use Rattle.format.specs.Outcome as outcome;
ghost use Rattle.mode.specs.Class.{told_class};
ghost use Rattle.target_asked.specs.Asked.{allowed, told};

use mode::JumpType;

// A refusal: its number and its place.
#[derive(Clone, Copy)]
pub struct Refusal {
    pub number: u32,
    pub place: u64,
}

// Whether a mode of the class, a number and so many bytes have a target.
#[tactic(auto, unfolding(crate::specs::Asked::allowed))]
pub fn is_allowed(class: JumpType, mode: u32, number: u32, length: usize) -> bool
    ensures { result ≡ allowed (told_class class) mode number length }
{
    let size = class_rows::get_onsite_size(class);
    mode < 2048 && number < 0x100_0000 && size <= length
}

// The refusal, which has no place of its own.
pub fn refused() -> Result<u64, Refusal>
    ensures { told result ≡ outcome.refused 14 0 }
{
    Err(Refusal {
        number: 14,
        place: 0,
    })
}
