// A pair's fixup rows, once its check pass has ruled 11 to 13 out.
ghost use Rattle.std.specs.Prelude.{◌≡◌, ◌&&◌, ◌≤◌, leb, length};
ghost use Rattle.laws.specs.Rows.{fixups_in};
ghost use Rattle.sites.specs.Site.{is_ready, made_at};
ghost use Rattle.fixups.specs.Walk.{line_at};
ghost use Rattle.fixups.specs.Pass.{rowed_by, PairRows};

use crate::walk::fixup_rows;
use checks::{Fault, check_pair};
use rooms::FIXUP_ROOM;
use sites::Site;

// The walk's answer, as the pair's.
fn answered(r: Result<usize, u32>) -> Result<usize, Fault>
    ensures { result ≡ rowed_by r }
{
    match r {
        Err(n) => Err(Fault::Refused(n)),
        Ok(k) => Ok(k),
    }
}

// A site whose fragments made n numbers.
fn with_numbers(site: Site, n: usize) -> Site
    ensures { result ≡ made_at site n }
{
    Site { made: n, ..site }
}

// How many fixup rows there are with a pair's; or 11 to 13, or that the site is not within the bounds or the rows have no room, and no row is written.
fn checked_rows(
    site: Site,
    ms: &[u32],
    es: &[u32],
    xs: &[u32],
    areas: &[u32],
    symbols: &[u32],
    ns: &[u32],
    wk: &[u8],
    rows: &mut [u32],
) -> Result<usize, Fault>
    requires { 64 ≤ length ns.now }
    ensures { PairRows (is_ready site && leb 9216 (length rows.old)) (line_at ms.now es.now xs.now areas.now symbols.now ns.now site wk.now (fixups_in rows.old site.filled.fixups)) rows.old result rows.new }
{
    if rows.len() < FIXUP_ROOM {
        return Err(Fault::Misfit);
    }
    check_pair(site, ms, es, xs, areas, symbols, wk)?;
    answered(fixup_rows(site, ms, es, xs, areas, symbols, ns, wk, rows))
}

// The same for a pair whose fragments made n numbers.
pub fn pair_rows(
    site: Site,
    n: usize,
    ms: &[u32],
    es: &[u32],
    xs: &[u32],
    areas: &[u32],
    symbols: &[u32],
    ns: &[u32; 64],
    wk: &[u8; 260],
    rows: &mut [u32],
) -> Result<usize, Fault>
    ensures { PairRows (is_ready (made_at site n) && leb 9216 (length rows.old)) (line_at ms.now es.now xs.now areas.now symbols.now ns.now (made_at site n) wk.now (fixups_in rows.old site.filled.fixups)) rows.old result rows.new }
{
    let here = with_numbers(site, n);
    checked_rows(here, ms, es, xs, areas, symbols, ns, wk, rows)
}
