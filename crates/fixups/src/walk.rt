// The walk over a pair's entries for its fixup rows.
ghost use Rattle.std.specs.Prelude.{◌≤◌, length};
ghost use Rattle.laws.specs.Rows.{fixups_in};
ghost use Rattle.fixups.specs.Next.{Clear};
ghost use Rattle.sites.specs.Site.{Ready};
ghost use Rattle.fixups.specs.Walk.{entry_at, line_at, Made};

use crate::next::{next_at, next_from};
use crate::row::add;
use references::refers_at;
use row_count::grows;
use sites::Site;

// The fragments of the entry e, in order.
fn fixups_at(
    site: Site,
    ms: &[u32],
    es: &[u32],
    xs: &[u32],
    areas: &[u32],
    symbols: &[u32],
    ns: &[u32],
    e: u32,
    p: u32,
    rows: &mut [u32],
    k: usize,
) -> Result<usize, u32>
    requires ready { Ready site }
    requires made_in_bounds { (site.made ≤ length ns.now) × (k ≤ 1024) × (9216 ≤ length rows.old) }
    ensures { Made (entry_at ms.now es.now xs.now areas.now symbols.now ns.now site e p (fixups_in rows.old k)) k rows.old result rows.new }
{
    let mut j = k;
    for i in 0..site.line.fragments {
        let to = refers_at(ms, es, xs, areas, symbols, site.filled, i, e);
        j = add(site, ms, ns, to, i, p, rows, j)?;
    }
    Ok(j)
}

// The same, and nothing to do below next, where no fragment gives a fixup.
fn entry_rows(
    site: Site,
    ms: &[u32],
    es: &[u32],
    xs: &[u32],
    areas: &[u32],
    symbols: &[u32],
    ns: &[u32],
    next: u32,
    e: u32,
    p: u32,
    rows: &mut [u32],
    k: usize,
) -> Result<usize, u32>
    requires ready { Ready site }
    requires clear { Clear ms.now es.now site.line.fragments e next }
    requires made_in_bounds { (site.made ≤ length ns.now) × (k ≤ 1024) × (9216 ≤ length rows.old) }
    ensures { Made (entry_at ms.now es.now xs.now areas.now symbols.now ns.now site e p (fixups_in rows.old k)) k rows.old result rows.new }
{
    if e < next {
        return Ok(k);
    }
    fixups_at(site, ms, es, xs, areas, symbols, ns, e, p, rows, k)
}

// The fixup rows that the entries from 0 on give, while the position is inside the area and fragments are left that can give one.
pub(crate) fn fixup_rows(
    site: Site,
    ms: &[u32],
    es: &[u32],
    xs: &[u32],
    areas: &[u32],
    symbols: &[u32],
    ns: &[u32],
    wk: &[u8],
    rows: &mut [u32],
) -> Result<usize, u32>
    requires ready { Ready site }
    requires made_in_bounds { (site.made ≤ length ns.now) × (9216 ≤ length rows.old) }
    ensures { Made (line_at ms.now es.now xs.now areas.now symbols.now ns.now site wk.now (fixups_in rows.old site.filled.fixups)) site.filled.fixups rows.old result rows.new }
{
    let n = (site.line.width + site.line.bytes) as u32;
    let mut k = site.filled.fixups;
    let mut e: u32 = 0;
    let mut p = site.line.address;
    let mut next = next_at(ms, es, site.line.fragments, 0);
    while next < n {
        if site.size <= p {
            return Ok(k);
        }
        k = entry_rows(site, ms, es, xs, areas, symbols, ns, next, e, p, rows, k)?;
        p += grows(wk, e);
        e += 1;
        next = next_from(ms, es, site.line.fragments, next, e);
    }
    Ok(k)
}
