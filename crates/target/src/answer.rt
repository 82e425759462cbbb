// The target of a fixup, or refusal 14.
ghost use Rattle.std.specs.Prelude.{◌≡◌, ◌%◌, get_or};
ghost use Rattle.format.specs.Target as defs;
ghost use Rattle.mode.specs.Class.{class_named, told_class};
ghost use Rattle.target.specs.Target.{reached_by, target_by};
ghost use Rattle.target_asked.specs.Asked.{told};

use crate::ported::{relative, signed_number};
use mode::JumpType;
use target_asked::{Refusal, is_allowed, refused};
use target_parts::{near, number_bit, signed_start, start};
use target_words::{byte_at, has, sub64, wide};

// The target by a class; what bytes there are not count as 0.
fn reached(class: JumpType, mode: u32, big: bool, number: u32, address: u64, bytes: &[u8]) -> u64
    ensures { result ≡ reached_by (told_class class) big mode number bytes.now address }
{
    let row = class_rows::row_of(class);
    let signed = !has(mode, 4);
    let tested = number_bit(class, has(mode, 8));
    let opcode = (byte_at(bytes, 0) / 32) << 5;
    let s = signed_start(signed, row.high, start(class, big, opcode, bytes));
    let n = signed_number(signed, tested, wide(number));
    let t = relative(class, mode, sub64(s, n), address);
    near(class, t, address)
}

// The target by a class, or refusal 14.
fn target_by(
    class: JumpType,
    mode: u32,
    big: bool,
    number: u32,
    address: u64,
    bytes: &[u8],
) -> Result<u64, Refusal>
    ensures { told result ≡ target_by (told_class class) big mode number bytes.now address }
{
    if is_allowed(class, mode, number, bytes.len()) {
        Ok(reached(class, mode, big, number, address, bytes))
    } else {
        refused()
    }
}

// The target by the class that a lent table has for the mode: for callers that ask often and make the table once.
pub fn target_in(
    table: &[u8; 2048],
    mode: u32,
    big: bool,
    number: u32,
    address: u64,
    bytes: &[u8],
) -> Result<u64, Refusal>
    ensures { told result ≡ target_by (class_named (get_or table.now (mode % 2048) 0)) big mode number bytes.now address }
{
    let class = mode::class_in(table, mode);
    target_by(class, mode, big, number, address, bytes)
}

// The target of a fixup: the mode, the order, the number and the address of its bytes, and the bytes on site.
pub fn target(mode: u32, big: bool, number: u32, address: u64, bytes: &[u8]) -> Result<u64, Refusal>
    ensures { told result ≡ defs.target big mode number bytes.now address }
{
    let class = mode::class_of(mode);
    target_by(class, mode, big, number, address, bytes)
}
