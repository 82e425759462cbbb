// What only the ported target does: its number's sign, and the address taken off.
ghost use Rattle.std.specs.Prelude.{◌≡◌, ◌≤◌};
ghost use Rattle.format.specs.Target as defs;
ghost use Rattle.mode.specs.Class.{told_class};
ghost use Rattle.target.specs.Target.{relative_of};

use mode::JumpType;
use target_parts::in_block;
use target_words::{add64, behind, has, shl64, shr64, sub64};

// A number, less 2 shifted left by the number itself, where the mode is signed and the tested bit is set.
pub(crate) fn signed_number(signed: bool, tested: u64, n: u64) -> u64
    requires { tested ≤ 23 }
    ensures { result ≡ defs.signed_number signed tested n }
{
    if signed && shr64(n, tested) % 2 == 1 {
        sub64(n, shl64(2, n))
    } else {
        n
    }
}

// With bit 2 the address is taken off; without it a target may lie in a block.
pub(crate) fn relative(class: JumpType, mode: u32, t: u64, address: u64) -> u64
    ensures { result ≡ relative_of (told_class class) mode t address }
{
    if has(mode, 2) {
        sub64(t, add64(address, behind(mode)))
    } else {
        in_block(class, t, address)
    }
}
