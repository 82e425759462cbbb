// The fragments of each pair.
ghost use Rattle.std.specs.Prelude.{◌≡◌, ℕ, ◌≤◌, ◌+◌, ◌<◌};
ghost use Rattle.format.specs.Mode.{class_of, touched};
ghost use Rattle.laws.specs.Rows.{from, fragment};
ghost use Rattle.record_parts.specs.Parts.{fragment_from};
ghost use Rattle.laid.specs.Fit.{whole, clear, fit_fragment, beside, beside_all, fit_fragments};
ghost use Rattle.fit_rows.specs.Fits.{form_by, body_at, bodies_from};

use cells::{at, wide};
use mode::{JumpType, class_of};
use rooms::PAIR_WIDTH;
use target_words::has;

// Addr16 or Addr24.
fn is_whole(mode: u32) -> bool
    ensures { result ≡ whole (class_of mode) }
{
    matches!(class_of(mode), JumpType::Addr24 | JumpType::Addr16)
}

// Bits 2, 5, 6, 9 and 10 clear.
#[tactic(auto, unfolding(laid::specs::Fit::clear))]
fn is_clear(mode: u32) -> bool
    ensures { result ≡ clear mode }
{
    !(has(mode, 2) || has(mode, 5) || has(mode, 6) || has(mode, 9) || has(mode, 10))
}

// A fragment of such a mode at or behind the address length.
#[tactic(auto, unfolding(laid::specs::Fit::fit_fragment))]
fn fits_fragment(mode: u32, entry: u32, width: u32) -> bool
    ensures { (index : ℕ) → result ≡ fit_fragment (form_by width) (fragment mode entry index) }
{
    is_whole(mode) && is_clear(mode) && width <= entry
}

// How many entries a mode touches.
fn touches(mode: u32) -> u32
    ensures { result ≡ touched mode }
{
    let class = class_of(mode);
    class_rows::touched(class, has(mode, 8)) as u32
}

// Whether two fragments touch no entry in common.
#[tactic(auto, unfolding(laid::specs::Fit::beside))]
fn is_beside(m: u32, e: u32, n: u32, f: u32) -> bool
    ensures { (x y : ℕ) → result ≡ beside (fragment m e x) (fragment n f y) }
{
    let end = wide(e) + wide(touches(m));
    end <= wide(f) || wide(f) + wide(touches(n)) <= wide(e)
}

// Whether a fragment touches no entry in common with those of n rows from the k-th on.
fn beside_all(rows: &[u32], mode: u32, entry: u32, k: usize, n: usize) -> bool
    requires { k + n ≤ 12884901888 }
    ensures { (index : ℕ) → result ≡ beside_all (fragment mode entry index) (from (fragment_from rows.now) k n) }
{
    for i in 0..n {
        let p = 3 * (k + i);
        if !is_beside(mode, entry, at(rows, p), at(rows, p + 1)) {
            return false;
        }
    }
    true
}

// The fragments of n rows from the k-th on.
fn fit_fragments(rows: &[u32], k: usize, n: usize, width: u32) -> bool
    requires { (k ≤ 4294967296) × (n ≤ 4294967296) }
    ensures { result ≡ fit_fragments (form_by width) (from (fragment_from rows.now) k n) }
{
    for i in 0..n {
        let p = 3 * (k + i);
        let mode = at(rows, p);
        let entry = at(rows, p + 1);
        if !fits_fragment(mode, entry, width) {
            return false;
        }
        if !beside_all(rows, mode, entry, k + i + 1, n - i - 1) {
            return false;
        }
    }
    true
}

// Those of the k-th pair.
fn fit_body(pairs: &[u32], rows: &[u32], k: usize, width: u32) -> bool
    requires { k ≤ 4096 }
    ensures { result ≡ body_at width pairs.now rows.now k }
{
    let p = PAIR_WIDTH * k;
    fit_fragments(rows, wide(at(pairs, p + 5)), wide(at(pairs, p + 6)), width)
}

// Those of the first n pairs.
pub(crate) fn fit_bodies(pairs: &[u32], rows: &[u32], n: usize, width: u32) -> bool
    requires { n ≤ 4096 }
    ensures { result ≡ bodies_from width pairs.now rows.now 0 n }
{
    for k in 0..n {
        if !fit_body(pairs, rows, k, width) {
            return false;
        }
    }
    true
}
