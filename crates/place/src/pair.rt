// A T and R pair of any area: one of a kept area is placed, any other changes nothing.
ghost use Rattle.std.specs.Prelude.{true, ◌≡◌, ◌≤◌, length};
ghost use Rattle.laws.specs.Rows.{state_of};
ghost use Rattle.sites.specs.Site.{Ready};
ghost use Rattle.work.specs.Work.{made_by};
ghost use Rattle.place.specs.Pair.{fits, stopped_by, worked_pair, site_pair, pair_in, Placeable, PairPlaced};

use cells::wide;
use checks::Fault;
use fixups::pair_rows;
use homes::Home;
use images::{write_image, write_plain};
use located::{Found, home_fits, locate};
use sites::{Filled, Line, Site};
use work::work_line;

// How many fixup rows there are then, and the known bits of the area; a refusal's number with the T line's place; or that the numbers do not fit.
#[derive(Clone, Copy)]
pub enum Placed {
    Done(usize, usize),
    Stopped(u32, usize),
    Misfit,
}

// What a pair comes to that is not placed: a refusal comes with the T line's place.
fn stopped(fault: Fault, place: usize) -> Placed
    ensures { result ≡ stopped_by fault place }
{
    match fault {
        Fault::Misfit => Placed::Misfit,
        Fault::Refused(n) => Placed::Stopped(n, place),
    }
}

// A pair with its work line worked in, or 10: its fixup rows, or 11 to 13; then its bytes.
fn place_worked(
    site: Site,
    worked: Option<usize>,
    ms: &[u32],
    es: &[u32],
    xs: &[u32],
    areas: &[u32],
    symbols: &[u32],
    ns: &[u32; 64],
    wv: &[u8; 260],
    wm: &[u8; 260],
    wk: &[u8; 260],
    values: &mut [u8],
    masks: &mut [u8],
    rows: &mut [u32],
) -> Placed
    requires ready { Ready site }
    requires worked_bound { (made_by worked ≤ 64) × (9216 ≤ length rows.old) }
    ensures { PairPlaced true (worked_pair site worked ms.now es.now xs.now areas.now symbols.now ns.now wv.now wm.now wk.now (state_of values.old masks.old rows.old site.filled.fixups)) site.filled.known values.old masks.old rows.old result values.new masks.new rows.new }
{
    let Some(n) = worked else {
        return Placed::Stopped(10, site.line.place);
    };
    match pair_rows(site, n, ms, es, xs, areas, symbols, ns, wk, rows) {
        Err(fault) => stopped(fault, site.line.place),
        Ok(k) => {
            let known = write_image(site, wv, wm, wk, values, masks);
            Placed::Done(k, known)
        }
    }
}

// A pair with fragments, on a work line of its own.
fn place_fragments(
    site: Site,
    bs: &[u8],
    ms: &[u32],
    es: &[u32],
    xs: &[u32],
    areas: &[u32],
    symbols: &[u32],
    values: &mut [u8],
    masks: &mut [u8],
    rows: &mut [u32],
) -> Placed
    requires { Placeable site bs.now rows.old }
    ensures { PairPlaced true (site_pair site bs.now ms.now es.now xs.now areas.now symbols.now (state_of values.old masks.old rows.old site.filled.fixups)) site.filled.known values.old masks.old rows.old result values.new masks.new rows.new }
{
    let mut wv = [0; 260];
    let mut wm = [0; 260];
    let mut wk = [0; 260];
    let mut ns = [0; 64];
    let worked = work_line(site.line, bs, ms, es, &mut wv, &mut wm, &mut wk, &mut ns);
    place_worked(
        site, worked, ms, es, xs, areas, symbols, &ns, &wv, &wm, &wk, values, masks, rows,
    )
}

// A pair of a kept area: one without fragments has no fixups, and its content is laid down as it is.
fn process_relocs(
    site: Site,
    bs: &[u8],
    ms: &[u32],
    es: &[u32],
    xs: &[u32],
    areas: &[u32],
    symbols: &[u32],
    values: &mut [u8],
    masks: &mut [u8],
    rows: &mut [u32],
) -> Placed
    requires { Placeable site bs.now rows.old }
    ensures { PairPlaced true (site_pair site bs.now ms.now es.now xs.now areas.now symbols.now (state_of values.old masks.old rows.old site.filled.fixups)) site.filled.known values.old masks.old rows.old result values.new masks.new rows.new }
{
    if site.line.fragments == 0 {
        let known = write_plain(site, bs, values, masks);
        return Placed::Done(site.filled.fixups, known);
    }
    place_fragments(site, bs, ms, es, xs, areas, symbols, values, masks, rows)
}

// One T and R pair, given its area's home: a refusal or a misfit changes nothing, and neither does a pair of an area that is not kept. Another area's home is a misfit.
pub fn place_pair(
    line: Line,
    home: Home,
    bs: &[u8],
    ms: &[u32],
    es: &[u32],
    xs: &[u32],
    areas: &[u32],
    symbols: &[u32],
    filled: Filled,
    values: &mut [u8],
    masks: &mut [u8],
    rows: &mut [u32],
) -> Placed
    ensures { PairPlaced (fits line home bs.now filled rows.old) (pair_in line home bs.now ms.now es.now xs.now areas.now symbols.now filled (state_of values.old masks.old rows.old filled.fixups)) filled.known values.old masks.old rows.old result values.new masks.new rows.new }
{
    if !home_fits(home, line, filled, bs.len(), rows.len()) {
        return Placed::Misfit;
    }
    match locate(home, line, filled) {
        Found::Unkept => Placed::Done(filled.fixups, wide(filled.known)),
        Found::Misfit => Placed::Misfit,
        Found::At(site) => process_relocs(
            site, bs, ms, es, xs, areas, symbols, values, masks, rows,
        ),
    }
}
