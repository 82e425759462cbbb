// The mode step on a lent part of the work line.
ghost use Rattle.std.specs.Prelude.{◌≡◌, ◌+◌, ◌≤◌, ◌<◌, length};
ghost use Rattle.mode.specs.Class.{told_class};
ghost use Rattle.mode_step.specs.Step.{Laid, LaidAt, TwoLaid, Lain, Modified, Room, cell, opcode_of};

use class_rows::{Row, row_of, touched};
use joining::endian_to_number;
use mode::JumpType;

// v in the first k places, and 0 behind them.
fn cell_at(k: usize, v: u8, i: usize) -> u8
    ensures { result ≡ cell k v i }
{
    if i < k { v } else { 0 }
}

// Lays the entry i.
fn lay_one(
    op: u8,
    mask: u8,
    size: usize,
    i: usize,
    values: &mut [u8],
    masks: &mut [u8],
    kept: &mut [u8],
)
    requires { Room (i + 1) values.old masks.old kept.old }
    ensures { LaidAt op mask size i values.old masks.old kept.old values.new masks.new kept.new }
{
    values[i] = cell_at(1, op, i);
    masks[i] = cell_at(1, mask, i);
    kept[i] = cell_at(size, 1, i);
}

// Lays the entries i and i + 1, as far as they are below t.
fn lay_two(
    op: u8,
    mask: u8,
    size: usize,
    i: usize,
    t: usize,
    values: &mut [u8],
    masks: &mut [u8],
    kept: &mut [u8],
)
    requires i_lt_t { (i < t) × (t ≤ 4) }
    requires room { Room t values.old masks.old kept.old }
    ensures { TwoLaid op mask size i t values.old masks.old kept.old values.new masks.new kept.new }
{
    lay_one(op, mask, size, i, values, masks, kept);
    if t <= i + 1 {
        return;
    }
    lay_one(op, mask, size, i + 1, values, masks, kept);
}

// Lays the first t entries, four at most: the opcode and its mask stand first with 0 behind them, and the first size entries are kept. So few are quicker straight than in a loop.
fn lay(
    op: u8,
    mask: u8,
    size: usize,
    t: usize,
    values: &mut [u8],
    masks: &mut [u8],
    kept: &mut [u8],
)
    requires le_t { (1 ≤ t) × (t ≤ 4) }
    requires room { Room t values.old masks.old kept.old }
    ensures { Lain op mask size t values.old masks.old kept.old values.new masks.new kept.new }
{
    lay_two(op, mask, size, 0, t, values, masks, kept);
    if t <= 2 {
        return;
    }
    lay_two(op, mask, size, 2, t, values, masks, kept);
}

// The opcode behind the joined values, where the class has a mask for it.
fn opcode(values: &[u8], mask: u8, touched: usize) -> u8
    requires { (1 ≤ touched) × (touched ≤ length values.now) }
    ensures { result ≡ opcode_of mask touched values.now }
{
    if mask == 0 { 0 } else { values[touched - 1] }
}

// The step at a row's numbers, on parts that are long enough for the t entries it touches.
fn step_row(
    row: Row,
    t: usize,
    big: bool,
    values: &mut [u8],
    masks: &mut [u8],
    kept: &mut [u8],
) -> u32
    requires le_t { (1 ≤ t) × (t ≤ 4) }
    requires room { Room t values.old masks.old kept.old }
    ensures { Laid row t big result values.old masks.old kept.old values.new masks.new kept.new }
{
    let number = endian_to_number(big, values, row.joins);
    let op = opcode(values, row.mask, t);
    lay(op, row.mask, row.size, t, values, masks, kept);
    number
}

// What a fragment does to its part of the work line, and the number that it made, or none where a part was too short: values, masks and kept flags from its entry on. Three says that bit 8 of its mode is set.
#[tactic(auto, unfolding(crate::specs::Step::fits))]
pub fn modify_cmf_to_fixup(
    class: JumpType,
    three: bool,
    big: bool,
    values: &mut [u8],
    masks: &mut [u8],
    kept: &mut [u8],
) -> Option<u32>
    ensures { Modified (told_class class) three big result values.old masks.old kept.old values.new masks.new kept.new }
{
    let t = touched(class, three);
    if values.len() < t || masks.len() < t || kept.len() < t {
        return None;
    }
    let row = row_of(class);
    Some(step_row(row, t, big, values, masks, kept))
}
