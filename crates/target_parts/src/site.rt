// What the bytes on site and the number say, each with its sign, and what the address adds.
ghost use Rattle.std.specs.Prelude.{◌≡◌, ◌<◌, drop, take};
ghost use Rattle.format.specs.Number.{join};
ghost use Rattle.format.specs.Target as defs;
ghost use Rattle.mode.specs.Class.{told_class};
ghost use Rattle.target_parts.specs.Parts.{start_by};

use mode::JumpType;
use target_words::{add64, byte_at, shl64, shr64, sub64, wide};

// The number that the second and the third byte hold.
fn after_first(big: bool, bytes: &[u8]) -> u64
    ensures { (result ≡ join big (take 2 (drop 1 bytes.now))) × (result < 4294967296) }
{
    if bytes.is_empty() {
        return 0;
    }
    wide(joining::endian_to_number(big, &bytes[1..], 2))
}

// The start: the bytes on site, without their sign. Above the other bytes of the two short jumps stands what their opcode gives.
pub fn start(class: JumpType, big: bool, opcode: u8, bytes: &[u8]) -> u64
    ensures { result ≡ start_by opcode (told_class class) big bytes.now }
{
    match class {
        JumpType::Addr19 => (u64::from(opcode) << 16) + after_first(big, bytes),
        JumpType::Addr11 => (u64::from(opcode) << 8) + u64::from(byte_at(bytes, 1)),
        JumpType::Addr24 => wide(joining::endian_to_number(big, bytes, 3)),
        JumpType::Addr16 => wide(joining::endian_to_number(big, bytes, 2)),
        JumpType::Byte => u64::from(byte_at(bytes, 0)),
        JumpType::Other => 0,
    }
}

// A start, or a number of the corrected target, less twice its sign bit where the mode is signed and that bit is set.
pub fn signed_start(signed: bool, high: u64, t: u64) -> u64
    ensures { result ≡ defs.signed_start signed high t }
{
    if signed && high < 64 && shr64(t, high) % 2 == 1 {
        sub64(t, shl64(2, high))
    } else {
        t
    }
}

// The bit of the number that is tested for its sign; three says that bit 8 of the mode is set.
pub fn number_bit(class: JumpType, three: bool) -> u64
    ensures { result ≡ defs.number_bit (told_class class) three }
{
    let row = class_rows::row_of(class);
    let JumpType::Other = class else {
        return row.tested;
    };
    if three { 23 } else { row.tested }
}

// The low bits of a target, and the next five of the address behind the instruction, for the classes that jump inside a block.
pub fn in_block(class: JumpType, t: u64, address: u64) -> u64
    ensures { result ≡ defs.in_block (told_class class) t address }
{
    match class {
        JumpType::Addr19 => t % 0x8_0000 + ((add64(address, 3) / 0x8_0000 % 32) << 19),
        JumpType::Addr11 => t % 0x800 + ((add64(address, 2) / 0x800 % 32) << 11),
        _ => t,
    }
}

// The low bits of a target, so many as its class has of its own, and all others of the address.
pub fn near(class: JumpType, t: u64, address: u64) -> u64
    ensures { result ≡ defs.near (defs.closing (told_class class)) t address }
{
    let row = class_rows::row_of(class);
    let low = shl64(1, row.closing);
    let block = shr64(address, row.closing);
    t % low + shl64(block, row.closing)
}
