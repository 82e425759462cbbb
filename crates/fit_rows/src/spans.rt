// The positions that pairs within the conditions write: their bytes one behind the other, as far as they lie in the area.
ghost use Rattle.std.specs.Prelude.{◌≡◌, ◌≤◌, ◌<◌, ◌+◌};
ghost use Rattle.fit_rows.specs.Fits.{apart_at, apart_from, clear_from, end_at, meets as meets_of};

use cells::{at, wide};
use homes::home_at;
use rooms::PAIR_WIDTH;

// Whether the j-th pair's bytes and the positions from s up to e of an area have one in common.
#[tactic(auto, unfolding(crate::specs::Fits::meets))]
fn meets(pairs: &[u32], area: u32, s: usize, e: usize, j: usize) -> bool
    requires { j ≤ 4096 }
    ensures { result ≡ meets_of pairs.now area s e j }
{
    let p = PAIR_WIDTH * j;
    if at(pairs, p + 2) != area {
        return false;
    }
    let b = wide(at(pairs, p + 1));
    let d = b + wide(at(pairs, p + 4));
    s < e && s < d && b < e && b < d
}

// Whether none of n pairs from the k-th on has.
fn is_clear_of(pairs: &[u32], area: u32, s: usize, e: usize, k: usize, n: usize) -> bool
    requires { k + n ≤ 4096 }
    ensures { result ≡ clear_from pairs.now area s e k n }
{
    for i in 0..n {
        if meets(pairs, area, s, e, k + i) {
            return false;
        }
    }
    true
}

// Where the k-th pair's bytes end in its area's image.
#[tactic(auto, unfolding(crate::specs::Fits::end_at))]
fn end_at(areas: &[u32], na: usize, pairs: &[u32], k: usize) -> usize
    requires { k ≤ 4096 }
    ensures { result ≡ end_at areas.now na pairs.now k }
{
    let p = PAIR_WIDTH * k;
    let home = home_at(areas, na, wide(at(pairs, p + 2)));
    let d = wide(at(pairs, p + 1)) + wide(at(pairs, p + 4));
    d.min(wide(home.size))
}

// Whether the k-th pair writes no position in common with the n behind it.
fn is_apart(areas: &[u32], na: usize, pairs: &[u32], k: usize, n: usize) -> bool
    requires { k + n < 4096 }
    ensures { result ≡ apart_at areas.now na pairs.now k n }
{
    let p = PAIR_WIDTH * k;
    let e = end_at(areas, na, pairs, k);
    let s = wide(at(pairs, p + 1));
    is_clear_of(pairs, at(pairs, p + 2), s, e, k + 1, n)
}

// Whether no two of the first n pairs write a common position.
pub(crate) fn are_apart(areas: &[u32], na: usize, pairs: &[u32], n: usize) -> bool
    requires { n ≤ 4096 }
    ensures { result ≡ apart_from areas.now na pairs.now 0 n }
{
    for k in 0..n {
        if !is_apart(areas, na, pairs, k, n - k - 1) {
            return false;
        }
    }
    true
}
