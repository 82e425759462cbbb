// All pairs one after the other, and the positions that are left.
ghost use Rattle.std.specs.Prelude.{◌≡◌, ◌≤◌, length, take};
ghost use Rattle.covered.specs.Covered.{unwritten_in};
ghost use Rattle.coverage.specs.Rows.{RowsMark, RowsCover};

use crate::pair::mark_row;
use cells::fill_bytes;
use rooms::PAIR_WIDTH;

// The rows of many pairs from the first on.
fn mark_rows(
    areas: &[u32],
    n: usize,
    pairs: &[u32],
    content: &[u8],
    fragments: &[u32],
    many: usize,
    big: bool,
    width: usize,
    map: &mut [u8],
)
    requires { (many ≤ 4096) × (n ≤ 64) }
    ensures { RowsMark areas.now n pairs.now content.now fragments.now many big width map.old map.new }
{
    for k in 0..many {
        mark_row(
            areas,
            n,
            pairs,
            content,
            fragments,
            PAIR_WIDTH * k,
            big,
            width,
            map,
        );
    }
}

// How many of the first n positions of a map are 0.
fn unwritten(map: &[u8], n: usize) -> usize
    requires { n ≤ length map.now }
    ensures { result ≡ unwritten_in (take n map.now) }
{
    map[..n].iter().filter(|x| **x == 0).count()
}

// A map of so many positions, and how many of them no pair writes.
pub(crate) fn cover_rows(
    areas: &[u32],
    n: usize,
    positions: usize,
    pairs: &[u32],
    content: &[u8],
    fragments: &[u32],
    many: usize,
    big: bool,
    width: usize,
    map: &mut [u8],
) -> usize
    requires { (many ≤ 4096) × (n ≤ 64) × (positions ≤ length map.old) }
    ensures { RowsCover areas.now n positions pairs.now content.now fragments.now many big width map.old result map.new }
{
    fill_bytes(map, 0, positions, 0);
    mark_rows(areas, n, pairs, content, fragments, many, big, width, map);
    unwritten(map, positions)
}
