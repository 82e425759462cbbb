// What a pair alone leaves at one position of its area, from its work line; no image is looked at.
#![tactic(auto)]

ghost use Rattle.std.specs.Prelude.{◌≡◌, ◌&&◌, ◌≤◌, eqb, get_or, length};
ghost use Rattle.sites.specs.Site.{Ready};
ghost use Rattle.one_cell.specs.Cell.{SoughtIn, SiteCell, CellIs};

use cells::{byte_at, wide};
use homes::Home;
use located::{Found, home_fits, locate};
use rooms::FIXUP_ROOM;
use row_count::grows;
use sites::{Filled, Line, Site};
use work::work_line;

// The value and the mask that are written there, that nothing is, that 10 refuses the pair, or that the numbers do not fit.
#[derive(Clone, Copy)]
pub enum Cell {
    Byte { value: u8, mask: u8 },
    Nothing,
    Beyond,
    Misfit,
}

// Whether the entry e is kept, and the position is the one that is looked for.
fn is_here(wk: &[u8], e: u32, p: u32, want: u32) -> bool
    ensures { result ≡ (eqb (get_or wk.now e 0) 1 && eqb p want) }
{
    byte_at(wk, wide(e)) == 1 && p == want
}

// What the entry e leaves.
fn byte_of(wv: &[u8], wm: &[u8], e: u32) -> Cell
    ensures { result ≡ Cell.Byte (get_or wv.now e 0) (get_or wm.now e 0) }
{
    Cell::Byte {
        value: byte_at(wv, wide(e)),
        mask: byte_at(wm, wide(e)),
    }
}

// The entries from 0 on, while the position is inside the area, up to the one that is written at the position.
fn seek(site: Site, want: u32, wv: &[u8; 260], wm: &[u8; 260], wk: &[u8; 260]) -> Cell
    requires { Ready site }
    ensures { SoughtIn site want wv.now wm.now wk.now result }
{
    let n = (site.line.width + site.line.bytes) as u32;
    let mut p = site.line.address;
    for e in 0..n {
        if site.size <= p {
            return Cell::Nothing;
        }
        if is_here(wk, e, p, want) {
            return byte_of(wv, wm, e);
        }
        p += grows(wk, e);
    }
    Cell::Nothing
}

// A pair at its site, on a work line of its own.
fn cell_at_site(site: Site, bs: &[u8], ms: &[u32], es: &[u32], want: u32) -> Cell
    requires ready { Ready site }
    requires bytes_in_bounds { site.line.bytes ≤ length bs.now }
    ensures { SiteCell site bs.now ms.now es.now want result }
{
    let mut wv = [0; 260];
    let mut wm = [0; 260];
    let mut wk = [0; 260];
    let mut ns = [0; 64];
    match work_line(site.line, bs, ms, es, &mut wv, &mut wm, &mut wk, &mut ns) {
        Some(_) => seek(site, want, &wv, &wm, &wk),
        None => Cell::Beyond,
    }
}

// What one T and R pair alone leaves at a position of its area, given the area's home. A pair of an area that is not kept leaves nothing; another area's home is a misfit.
pub fn cell_of(line: Line, home: Home, bs: &[u8], ms: &[u32], es: &[u32], want: u32) -> Cell
    ensures { CellIs line home bs.now ms.now es.now want result }
{
    let filled = Filled {
        areas: 0,
        symbols: 0,
        fixups: 0,
        known: 0,
    };
    if !home_fits(home, line, filled, bs.len(), FIXUP_ROOM) {
        return Cell::Misfit;
    }
    match locate(home, line, filled) {
        Found::Unkept => Cell::Nothing,
        Found::Misfit => Cell::Misfit,
        Found::At(site) => cell_at_site(site, bs, ms, es, want),
    }
}
