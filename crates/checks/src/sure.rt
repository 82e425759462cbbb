// A test by which most pairs need no check pass: no fragment can meet 11, 12 or 13.
ghost use Rattle.std.specs.Prelude.{◌≡◌, true, ◌<◌};
ghost use Rattle.checks.specs.Sure.{Held, AllHeld, Counted, Sure};
ghost use Rattle.sites.specs.Site.{Ready};

use cells::{at, wide};
use sites::Site;

// Whether a fragment's index is an area's, or that of one of the n symbols.
fn held(mode: u32, index: u32, n: usize) -> bool
    ensures { result ≡ true → Held mode index n }
{
    mode / 2 % 2 != 1 || wide(index) < n
}

// Whether that holds for the first c fragments.
fn all_held(ms: &[u32], xs: &[u32], c: usize, n: usize) -> bool
    ensures { result ≡ true → AllHeld ms.now xs.now n c }
{
    for i in 0..c {
        if !held(at(ms, i), at(xs, i), n) {
            return false;
        }
    }
    true
}

// Whether each fragment made a number, and there is room for a row of each at each entry.
fn counted(site: Site) -> bool
    requires { Ready site }
    ensures { result ≡ true → Counted site }
{
    let c = site.line.fragments;
    c <= site.made && site.filled.fixups + (site.line.width + site.line.bytes) * c <= 1024
}

// Whether both do.
pub(crate) fn sure(site: Site, ms: &[u32], xs: &[u32]) -> bool
    requires { Ready site }
    ensures { result ≡ true → Sure site ms.now xs.now }
{
    counted(site) && all_held(ms, xs, site.line.fragments, site.filled.symbols)
}
