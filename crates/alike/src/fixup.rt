// Whether two fixups are equal.
ghost use Rattle.std.specs.Prelude.{◌≡◌};
ghost use Rattle.difference.specs.Module.{same_numbers, says};
ghost use Rattle.laws.specs.Rows.{fixup_row};
ghost use Rattle.fixup_rows.specs.Fixups.{told_fixup};
ghost use Rattle.alike.specs.Parts.{numbers_of, refers_to};

use crate::name::same_name;
use fixup_rows::{Fixup, fixup_at, fixup_name};

// Whether all is equal but what they refer to, number by number: the first that differs ends it.
#[inline(always)]
fn same_numbers(x: Fixup, y: Fixup) -> bool
    ensures { result ≡ same_numbers (numbers_of (told_fixup x)) (numbers_of (told_fixup y)) }
{
    if x.home != y.home {
        return false;
    }
    if x.position != y.position {
        return false;
    }
    if x.size != y.size {
        return false;
    }
    if x.mode != y.mode {
        return false;
    }
    if x.value != y.value {
        return false;
    }
    if x.number != y.number {
        return false;
    }
    x.outside == y.outside
}

// Whether fixup i, which is x, and fixup j, which is y, refer to the same: an area by its id, an outside symbol by its name.
fn same_reference(
    s: &[u8],
    xs: &[u32],
    i: usize,
    x: Fixup,
    t: &[u8],
    ys: &[u32],
    j: usize,
    y: Fixup,
) -> bool
    requires { (x.outside ≡ y.outside) × (told_fixup x ≡ fixup_row xs.now i) × (told_fixup y ≡ fixup_row ys.now j) }
    ensures { result ≡ same_numbers (refers_to s.now (fixup_row xs.now i)) (refers_to t.now (fixup_row ys.now j)) }
{
    if x.outside == 0 {
        return x.what == y.what;
    }
    same_name(fixup_name(s, xs, i), fixup_name(t, ys, j))
}

// Whether fixup i of a text says the same as fixup j of another.
pub fn same_fixup(s: &[u8], xs: &[u32], i: usize, t: &[u8], ys: &[u32], j: usize) -> bool
    ensures { result ≡ same_numbers (says s.now (fixup_row xs.now i)) (says t.now (fixup_row ys.now j)) }
{
    let x = fixup_at(xs, i);
    let y = fixup_at(ys, j);
    if same_numbers(x, y) {
        return same_reference(s, xs, i, x, t, ys, j, y);
    }
    false
}
