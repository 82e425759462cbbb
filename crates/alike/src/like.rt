// Which of a side's fixups equals one of the other's.
ghost use Rattle.std.specs.Prelude.{◌≡◌, ◌+◌, ◌*◌, get_or};
ghost use Rattle.laws.specs.Rows.{fixup_row};
ghost use Rattle.difference.specs.Module.{same_numbers, says};
ghost use Rattle.alike.specs.Parts.{same_at};
ghost use Rattle.alike.specs.Looked.{like_from, first_of};

use crate::fixup::same_fixup;
use row_parts::fixup_cell;

// Whether fixup i, which has this position, says the same as fixup j. Most have another, which is compared before the rest of
// their rows is read.
#[inline(always)]
fn same_placed(
    s: &[u8],
    xs: &[u32],
    i: usize,
    position: u32,
    t: &[u8],
    ys: &[u32],
    j: usize,
) -> bool
    requires { position ≡ get_or xs.now (9 * i + 1) 0 }
    ensures { result ≡ same_numbers (says s.now (fixup_row xs.now i)) (says t.now (fixup_row ys.now j)) }
{
    if fixup_cell(ys, j, 1) != position {
        return false;
    }
    same_fixup(s, xs, i, t, ys, j)
}

// The first of n fixups that equals fixup i, or n.
fn first_like(s: &[u8], xs: &[u32], i: usize, t: &[u8], ys: &[u32], n: usize) -> usize
    ensures { result ≡ first_of (same_at s.now xs.now i t.now ys.now) n }
{
    let position = fixup_cell(xs, i, 1);
    for j in 0..n {
        if same_placed(s, xs, i, position, t, ys, j) {
            return j;
        }
    }
    n
}

// One of n fixups that equals fixup i: the one that is expected, or the first, or n where there is none.
pub fn fixup_like(
    s: &[u8],
    xs: &[u32],
    i: usize,
    t: &[u8],
    ys: &[u32],
    n: usize,
    expected: usize,
) -> usize
    ensures { result ≡ like_from (same_at s.now xs.now i t.now ys.now) n expected }
{
    if expected < n {
        if same_fixup(s, xs, i, t, ys, expected) {
            return expected;
        }
        return first_like(s, xs, i, t, ys, n);
    }
    first_like(s, xs, i, t, ys, n)
}
