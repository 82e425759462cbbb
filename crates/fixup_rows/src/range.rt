// The rows of the fixups that belong to an area.
ghost use Rattle.std.specs.Prelude.{◌≡◌, ◌-◌};
ghost use Rattle.row_parts.specs.Ranges.{passing};
ghost use Rattle.fixup_rows.specs.Ranges.{fixup_in, fixups_of};

use cells::wide;
use row_parts::{Range, fixup_cell, same_as};

// Whether fixup j lies in the area of an id; or whether it does not.
fn fixup_in(fixups: &[u32], j: usize, id: usize, same: bool) -> bool
    ensures { result ≡ fixup_in fixups.now id same j }
{
    let home = fixup_cell(fixups, j, 0);
    same_as(wide(home) == id, same)
}

// The first of n fixups, from one on, that does not lie in the area of an id; or that does.
fn past_fixups(fixups: &[u32], n: usize, from: usize, id: usize, same: bool) -> usize
    ensures { result ≡ passing (fixup_in fixups.now id same) from (n - from) }
{
    for j in from..n {
        if !fixup_in(fixups, j, id, same) {
            return j;
        }
    }
    n.max(from)
}

// The fixups of the area of an id, among n fixups.
pub fn area_fixups(fixups: &[u32], n: usize, id: usize) -> Range
    ensures { result ≡ fixups_of fixups.now n id }
{
    let start = past_fixups(fixups, n, 0, id, false);
    let end = past_fixups(fixups, n, start, id, true);
    Range {
        start: start,
        end: end,
    }
}
