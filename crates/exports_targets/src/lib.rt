// What C and Rust link beside the readings: both targets of a fixup, what a target's caller needs of a text, and how much a
// caller of a reading has to lend. Every function answers for every input; none asks anything of its caller.
#![tactic(auto)]

ghost use Rattle.std.specs.Prelude.{◌≡◌};
ghost use Rattle.format.specs.Header.{header};
ghost use Rattle.format.specs.Target as the;
ghost use Rattle.format.specs.Corrected.{corrected};
ghost use Rattle.answer_numbers.specs.Numbers.{header_numbers, rooms, target_numbers, widths};

use answer_numbers::{HeaderNumbers, Rooms, TargetNumbers, Widths, header_numbers, target_numbers};

// The radix, order and address length of a text, which a target's caller needs.
#[unsafe(no_mangle)]
pub extern "C" fn gatecobalt_header(text: &[u8]) -> HeaderNumbers
    ensures { result ≡ header_numbers (header text.now) }
{
    header_numbers(header::format_spec(text))
}

// The target of a fixup: its mode, whether the module's order is big, its number, the address of its bytes, and the bytes.
#[unsafe(no_mangle)]
pub extern "C" fn gatecobalt_target(
    mode: u32,
    big: bool,
    number: u32,
    address: u64,
    bytes: &[u8],
) -> TargetNumbers
    ensures { result ≡ target_numbers (the.target big mode number bytes.now address) }
{
    target_numbers(target::target(mode, big, number, address, bytes))
}

// The target that agrees with the processor, asked as the ported one above.
#[unsafe(no_mangle)]
pub extern "C" fn gatecobalt_corrected_target(
    mode: u32,
    big: bool,
    number: u32,
    address: u64,
    bytes: &[u8],
) -> TargetNumbers
    ensures { result ≡ target_numbers (corrected big mode number bytes.now address) }
{
    target_numbers(corrected::corrected_target(mode, big, number, address, bytes))
}

// Numbers in a row of each table.
#[unsafe(no_mangle)]
pub extern "C" fn gatecobalt_widths() -> Widths
    ensures { result ≡ widths }
{
    answer_numbers::row_widths()
}

// The longest text, and the room that each lent buffer has to have, in elements.
#[unsafe(no_mangle)]
pub extern "C" fn gatecobalt_rooms() -> Rooms
    ensures { result ≡ rooms }
{
    answer_numbers::lent_rooms()
}
