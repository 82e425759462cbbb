// One line: what the Rust answered, held against the port's answer.
ghost use Rattle.std.specs.Prelude.{◌≤◌};

use crate::hex::{at, byte, four, number, short};
use mode::{class_number, get_jump_type};

// 1 if the port's answer differs, and how many bytes the line has.
#[derive(Clone, Copy)]
pub(crate) struct Line {
    pub(crate) differs: u64,
    pub(crate) width: usize,
}

// 0 for what is as it should be, 1 for what differs.
fn unless(same: bool) -> u64
    ensures { result ≤ 1 }
{
    if same { 0 } else { 1 }
}

// C MODE CLASS SIZE
fn class_line(line: &[u8]) -> u64
    ensures { result ≤ 1 }
{
    let mode = (number(line, 2, 3) % 0x1_0000) as u16;
    let Some(class) = get_jump_type(mode) else {
        return 1;
    };
    let size = class_rows::get_onsite_size(class) as u64;
    unless(u64::from(class_number(class)) == number(line, 6, 1) && size == number(line, 8, 1))
}

// S MODE ORDER VALUES MASKS KEPT NUMBER VALUES MASKS KEPT
fn step_line(line: &[u8]) -> u64
    ensures { result ≤ 1 }
{
    let mode = short(line, 2, 3);
    let class = mode::class_of(mode);
    let three = mode / 256 % 2 == 1;
    let big = number(line, 6, 1) == 1;
    let mut values = four(line, 8);
    let mut masks = four(line, 17);
    let mut kept = four(line, 26);
    let step = mode_step::modify_cmf_to_fixup(
        class,
        three,
        big,
        &mut values,
        &mut masks,
        &mut kept,
    );
    let Some(made) = step else {
        return 1;
    };
    unless(
        made == short(line, 35, 6)
            && joining::endian_to_number(true, &values, 4) == short(line, 42, 8)
            && joining::endian_to_number(true, &masks, 4) == short(line, 51, 8)
            && joining::endian_to_number(true, &kept, 4) == short(line, 60, 8),
    )
}

// T MODE ORDER NUMBER ADDRESS BYTES TARGET
fn target_line(line: &[u8]) -> u64
    ensures { result ≤ 1 }
{
    let mode = short(line, 2, 3);
    let big = number(line, 6, 1) == 1;
    let bytes = [byte(line, 32), byte(line, 34), byte(line, 36)];
    let answer = target::target(mode, big, short(line, 8, 6), number(line, 15, 16), &bytes);
    let Ok(address) = answer else {
        return 1;
    };
    unless(address == number(line, 39, 16))
}

// The line that stands first in a part of the text, which tells by its letter what it is.
pub(crate) fn held(part: &[u8]) -> Line
    ensures { (result.differs ≤ 1) × (1 ≤ result.width) }
{
    let kind = at(part, 0);
    if kind == b'C' {
        return Line {
            differs: class_line(part),
            width: 10,
        };
    }
    if kind == b'S' {
        return Line {
            differs: step_line(part),
            width: 69,
        };
    }
    if kind == b'T' {
        return Line {
            differs: target_line(part),
            width: 56,
        };
    }
    Line {
        differs: 1,
        width: 1,
    }
}
