// Whether the T and R pairs of a module, out of the rows of its records, are within the conditions under which code is laid.
#![tactic(auto)]

mod fragments;
mod spans;

ghost use Rattle.std.specs.Prelude.{◌≡◌};
ghost use Rattle.fit_rows.specs.Fits.{fits_rows};

use crate::fragments::fit_bodies;
use crate::spans::are_apart;

// Each fragment is Addr16 or Addr24 with bits 2, 5, 6, 9 and 10 clear at or behind the address length, fragments of one pair touch no entry in common, and pairs write no common position.
#[tactic(auto, unfolding(crate::specs::Fits::fits_rows))]
pub fn fits_rows(
    areas: &[u32],
    na: usize,
    pairs: &[u32],
    fragments: &[u32],
    n: usize,
    width: u32,
) -> bool
    ensures { result ≡ fits_rows areas.now na pairs.now fragments.now n width }
{
    n <= 4096 && fit_bodies(pairs, fragments, n, width) && are_apart(areas, na, pairs, n)
}
