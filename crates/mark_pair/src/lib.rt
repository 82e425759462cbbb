// The positions that a pair writes, marked in a map of all positions of the kept areas, from its work line; no image is looked at.
#![tactic(auto)]

ghost use Rattle.std.specs.Prelude.{◌≤◌, ◌<◌, ◌+◌, get_or, length};
ghost use Rattle.sites.specs.Site.{Ready};
ghost use Rattle.mark_pair.specs.Marks.{EntryMarks, EntriesMark, SiteMarks, PairMarks};

use cells::{byte_at, put, wide};
use homes::Home;
use located::{Found, home_fits, locate};
use rooms::FIXUP_ROOM;
use sites::{Filled, Line, Site};
use work::work_line;

// The entry e at the position p, if it is kept. Answers by how much the position grows.
fn mark_entry(wk: &[u8], e: u32, start: usize, p: u32, map: &mut [u8]) -> u32
    requires { start + p < 65536 }
    ensures { EntryMarks (get_or wk.now e 0) (start + p) map.old result map.new }
{
    if byte_at(wk, wide(e)) == 1 {
        put(map, start + wide(p), 1);
        return 1;
    }
    0
}

// The entries from 0 on, while the position is inside the area.
fn mark_entries(site: Site, wk: &[u8; 260], map: &mut [u8])
    requires { Ready site }
    ensures { EntriesMark site wk.now map.old map.new }
{
    let n = (site.line.width + site.line.bytes) as u32;
    let mut p = site.line.address;
    for e in 0..n {
        if site.size <= p {
            return;
        }
        p += mark_entry(wk, e, site.start, p, map);
    }
}

// A pair at its site, on a work line of its own. One that 10 refuses marks nothing.
fn mark_at_site(site: Site, bs: &[u8], ms: &[u32], es: &[u32], map: &mut [u8])
    requires ready { Ready site }
    requires bytes_in_bounds { site.line.bytes ≤ length bs.now }
    ensures { SiteMarks site bs.now ms.now es.now map.old map.new }
{
    let mut wv = [0; 260];
    let mut wm = [0; 260];
    let mut wk = [0; 260];
    let mut ns = [0; 64];
    match work_line(site.line, bs, ms, es, &mut wv, &mut wm, &mut wk, &mut ns) {
        Some(_) => mark_entries(site, &wk, map),
        None => {}
    }
}

// What one T and R pair writes, given the home of its area. A pair of an area that is not kept marks nothing, and so does one with another area's home.
pub fn mark_pair(line: Line, home: Home, bs: &[u8], ms: &[u32], es: &[u32], map: &mut [u8])
    ensures { PairMarks line home bs.now ms.now es.now map.old map.new }
{
    let filled = Filled {
        areas: 0,
        symbols: 0,
        fixups: 0,
        known: 0,
    };
    if !home_fits(home, line, filled, bs.len(), FIXUP_ROOM) {
        return;
    }
    match locate(home, line, filled) {
        Found::Unkept => {}
        Found::Misfit => {}
        Found::At(site) => mark_at_site(site, bs, ms, es, map),
    }
}
