// The check pass: 11, 12 and 13 as the walk of a pair meets them, before anything is written.
ghost use Rattle.std.specs.Prelude.{◌≤◌};
ghost use Rattle.sites.specs.Site.{Ready};
ghost use Rattle.checks.specs.Check.{count_entry, count_line, Tallied, Passes, Judged};

use crate::sure::sure;
use references::refers_at;
use row_count::{count_to, grows};
use sites::{Site, is_ready};

// Why a pair is not placed: that the numbers do not fit, or a refusal's number.
#[derive(Clone, Copy)]
pub enum Fault {
    Misfit,
    Refused(u32),
}

// The fragments of the entry e, in order.
fn check_entry(
    site: Site,
    ms: &[u32],
    es: &[u32],
    xs: &[u32],
    areas: &[u32],
    symbols: &[u32],
    e: u32,
    k: usize,
) -> Result<usize, u32>
    requires ready { Ready site }
    requires k_bound { k ≤ 1024 }
    ensures { Tallied (count_entry ms.now es.now xs.now areas.now symbols.now site e k) k result }
{
    let mut j = k;
    for i in 0..site.line.fragments {
        let to = refers_at(ms, es, xs, areas, symbols, site.filled, i, e);
        j = count_to(to, i, site.made, j)?;
    }
    Ok(j)
}

// The entries from 0 on, while the position is inside the area.
fn check_line(
    site: Site,
    ms: &[u32],
    es: &[u32],
    xs: &[u32],
    areas: &[u32],
    symbols: &[u32],
    wk: &[u8],
) -> Result<usize, u32>
    requires { Ready site }
    ensures { Tallied (count_line ms.now es.now xs.now areas.now symbols.now site wk.now) site.filled.fixups result }
{
    let n = (site.line.width + site.line.bytes) as u32;
    let mut k = site.filled.fixups;
    let mut p = site.line.address;
    for e in 0..n {
        if site.size <= p {
            return Ok(k);
        }
        k = check_entry(site, ms, es, xs, areas, symbols, e, k)?;
        p += grows(wk, e);
    }
    Ok(k)
}

// The same, spared where it is sure that no refusal comes: then no fixups are counted.
fn passes(
    site: Site,
    ms: &[u32],
    es: &[u32],
    xs: &[u32],
    areas: &[u32],
    symbols: &[u32],
    wk: &[u8],
) -> Result<usize, u32>
    requires { Ready site }
    ensures { Passes (count_line ms.now es.now xs.now areas.now symbols.now site wk.now) result }
{
    if sure(site, ms, xs) {
        return Ok(site.filled.fixups);
    }
    check_line(site, ms, es, xs, areas, symbols, wk)
}

// Whether there is a refusal, and which.
pub fn check_pair(
    site: Site,
    ms: &[u32],
    es: &[u32],
    xs: &[u32],
    areas: &[u32],
    symbols: &[u32],
    wk: &[u8],
) -> Result<(), Fault>
    ensures { Judged site (count_line ms.now es.now xs.now areas.now symbols.now site wk.now) result }
{
    if !is_ready(site) {
        return Err(Fault::Misfit);
    }
    match passes(site, ms, es, xs, areas, symbols, wk) {
        Err(n) => Err(Fault::Refused(n)),
        Ok(_) => Ok(()),
    }
}
