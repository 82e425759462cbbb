// The class of a mode by its bits: for one mode that is quicker than the table, which a caller would have to make.
ghost use Rattle.std.specs.Prelude.{◌≡◌};
ghost use Rattle.format.specs.Mode.{class_of};
ghost use Rattle.mode.specs.Class.{told_class};

use crate::class::JumpType;

// The class that the bits 0, 3, 7 and 8 of a mode decide.
#[tactic(auto, unfolding(format::specs::Mode::class_of, format::specs::Mode::bit))]
pub fn class_of(mode: u32) -> JumpType
    ensures { told_class result ≡ class_of mode }
{
    if mode % 2 == 1 {
        if mode / 8 % 2 == 1 {
            return JumpType::Other;
        }
        if mode / 256 % 2 == 1 {
            return JumpType::Other;
        }
        return JumpType::Byte;
    }
    if mode / 8 % 2 == 1 {
        if mode / 128 % 2 == 1 {
            return JumpType::Addr19;
        }
        return JumpType::Addr11;
    }
    if mode / 128 % 2 == 1 {
        return JumpType::Addr24;
    }
    if mode / 256 % 2 == 1 {
        return JumpType::Other;
    }
    JumpType::Addr16
}
