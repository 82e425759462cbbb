// The corrected target, which agrees with the processor, or refusal 14.
ghost use Rattle.std.specs.Prelude.{◌≡◌};
ghost use Rattle.format.specs.Corrected as defs;
ghost use Rattle.mode.specs.Class.{told_class};
ghost use Rattle.target_asked.specs.Asked.{told};
ghost use Rattle.corrected.specs.Corrected.{ahead_of, leads_to};

use mode::JumpType;
use target_asked::{Refusal, is_allowed, refused};
use target_parts::{in_block, near, number_bit, signed_start, start};
use target_words::{add64, behind, byte_at, has, sub64, wide};

// The sign bit of the start: Addr19's is 18, every other the ported one.
fn corrected_high(class: JumpType) -> u64
    ensures { result ≡ defs.corrected_high (told_class class) }
{
    let row = class_rows::row_of(class);
    let JumpType::Addr19 = class else {
        return row.high;
    };
    18
}

// With bit 2 a target counts from behind the address; without it a target may lie in a block.
fn ahead(class: JumpType, mode: u32, t: u64, address: u64) -> u64
    ensures { result ≡ ahead_of (told_class class) mode t address }
{
    if has(mode, 2) {
        add64(t, add64(address, behind(mode)))
    } else {
        in_block(class, t, address)
    }
}

// The corrected target by a class; what bytes there are not count as 0.
fn leads_to(class: JumpType, mode: u32, big: bool, number: u32, address: u64, bytes: &[u8]) -> u64
    ensures { result ≡ leads_to (told_class class) big mode number bytes.now address }
{
    let signed = !has(mode, 4);
    let tested = number_bit(class, has(mode, 8));
    let opcode = byte_at(bytes, 0) / 32;
    let high = corrected_high(class);
    let s = signed_start(signed, high, start(class, big, opcode, bytes));
    let n = signed_start(signed, tested, wide(number));
    let t = ahead(class, mode, sub64(s, n), address);
    near(class, t, address)
}

// The corrected target of a fixup: the mode, the order, the number and the address of its bytes, and the bytes on site.
pub fn corrected_target(
    mode: u32,
    big: bool,
    number: u32,
    address: u64,
    bytes: &[u8],
) -> Result<u64, Refusal>
    ensures { told result ≡ defs.corrected big mode number bytes.now address }
{
    let class = mode::class_of(mode);
    if is_allowed(class, mode, number, bytes.len()) {
        Ok(leads_to(class, mode, big, number, address, bytes))
    } else {
        refused()
    }
}
