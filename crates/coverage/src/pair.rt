// What one T and R pair, out of the rows of records, marks.
ghost use Rattle.std.specs.Prelude.{◌≤◌};
ghost use Rattle.mark_pair.specs.Marks.{PairMarks};
ghost use Rattle.coverage.specs.Pair.{MarksBy, RowMarks};

use cells::{at, wide};
use homes::{Home, home_at};
use mark_pair::mark_pair;
use record_parts::{columns_at, line_at};
use sites::Line;

// The columns of the fragments as arrays.
fn by_columns(line: Line, home: Home, bs: &[u8], ms: &[u32; 64], es: &[u32; 64], map: &mut [u8])
    ensures { PairMarks line home bs.now ms.now es.now map.old map.new }
{
    mark_pair(line, home, bs, ms, es, map)
}

// A pair's bytes, and the rows of its fragments from a place on.
fn by_rows(line: Line, home: Home, bs: &[u8], fragments: &[u32], row: usize, map: &mut [u8])
    ensures { MarksBy line home bs.now fragments.now row map.old map.new }
{
    let mut ms = [0u32; 64];
    let mut es = [0u32; 64];
    let mut xs = [0u32; 64];
    columns_at(fragments, row, line.fragments, &mut ms, &mut es, &mut xs);
    by_columns(line, home, bs, &ms, &es, map)
}

// The pair whose row begins at a place, among n areas.
pub(crate) fn mark_row(
    areas: &[u32],
    n: usize,
    pairs: &[u32],
    content: &[u8],
    fragments: &[u32],
    p: usize,
    big: bool,
    width: usize,
    map: &mut [u8],
)
    requires { (p ≤ 28672) × (n ≤ 64) }
    ensures { RowMarks areas.now n pairs.now content.now fragments.now p big width map.old map.new }
{
    let line = line_at(pairs, p, big, width);
    let first = wide(at(pairs, p + 3));
    let end = first + wide(at(pairs, p + 4));
    if content.len() < end {
        return;
    }
    let row = 3 * wide(at(pairs, p + 5));
    let home = home_at(areas, n, line.area);
    by_rows(line, home, &content[first..end], fragments, row, map)
}
