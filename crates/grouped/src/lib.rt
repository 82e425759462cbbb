// Fixup rows in text order to rows grouped by area.
#![tactic(auto)]

ghost use Rattle.std.specs.Prelude.{◌≡◌, ◌≤◌, ◌+◌, ◌*◌, length, get_or};
ghost use Rattle.format.specs.Lists.{over};
ghost use Rattle.laws.specs.Rows.{fixup_row, fixups_in};
ghost use Rattle.grouped.specs.Group.{row_for, area_for, areas_for, Stored, Regrouped};

use cells::{at, copy_u32s};
use rooms::FIXUP_WIDTH;

// The row i, if it lies in the area id.
fn row_to(rows: &[u32], i: usize, id: u32, out: &mut [u32], p: usize) -> usize
    requires i_in_bounds { 9 * i + 9 ≤ length rows.now }
    requires p_in_bounds { get_or rows.now (9 * i) 0 ≡ id → p + 9 ≤ length out.old }
    ensures { Stored (row_for id (fixup_row rows.now i)) p out.old result out.new }
{
    let s = FIXUP_WIDTH * i;
    if at(rows, s) == id {
        copy_u32s(out, p, &rows[s..], 9);
        return p + 9;
    }
    p
}

// The rows of the area id, from p on.
fn area_rows(rows: &[u32], k: usize, id: u32, out: &mut [u32], p: usize) -> usize
    requires k_in_bounds { 9 * k ≤ length rows.now }
    requires k_in_bounds_2 { p + length (area_for id (fixups_in rows.now k)) ≤ length out.old }
    ensures { Stored (area_for id (fixups_in rows.now k)) p out.old result out.new }
{
    let mut q = p;
    for i in 0..k {
        q = row_to(rows, i, id, out, q);
    }
    q
}

// All of them, area by area; n areas are kept.
fn areas_rows(rows: &[u32], k: usize, n: u32, out: &mut [u32]) -> usize
    requires { (9 * k ≤ length rows.now) × (9 * k ≤ length out.old) }
    ensures { (result ≡ length (areas_for n 0 (fixups_in rows.now k))) × (out.new ≡ over (areas_for n 0 (fixups_in rows.now k)) out.old) }
{
    let mut p: usize = 0;
    for id in 0..n {
        p = area_rows(rows, k, id, out, p);
    }
    p
}

// The first k fixup rows, grouped by the n kept areas, over a buffer: how many numbers they are, or none where one of the two buffers has no room for the rows.
pub fn by_area(rows: &[u32], k: usize, n: u32, out: &mut [u32]) -> Option<usize>
    ensures { Regrouped k n rows.now out.old result out.new }
{
    if rows.len() / 9 < k || out.len() / 9 < k {
        return None;
    }
    Some(areas_rows(rows, k, n, out))
}
