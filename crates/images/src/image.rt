// The walk over a pair's entries for its bytes in the images.
ghost use Rattle.std.specs.Prelude.{◌<◌, ◌≤◌, ◌+◌, get_or};
ghost use Rattle.sites.specs.Site.{Ready, is_ready};
ghost use Rattle.images.specs.Image.{image_of, Wrote, Imaged, Written};

use crate::count::{count_from, known_by};
use cells::wide;
use image_byte::put_byte;
use sites::{Site, is_ready};

// By how much the position grows at an entry, and the count then.
#[derive(Clone, Copy)]
pub(crate) struct Entered {
    pub grows: u32,
    pub count: usize,
}

// The entry e, at the position p, if it is kept.
fn write_entry(
    wv: &[u8; 260],
    wm: &[u8; 260],
    wk: &[u8; 260],
    e: u32,
    start: usize,
    p: u32,
    values: &mut [u8],
    masks: &mut [u8],
    count: usize,
) -> Entered
    requires { (e < 260) × (start + p < 65536) × (8 ≤ count) × (count ≤ 8589934592) }
    ensures { Wrote (get_or wk.now e 0) (start + p) (get_or wv.now e 0) (get_or wm.now e 0) count values.old masks.old result values.new masks.new }
{
    let i = wide(e);
    if wk[i] == 1 {
        let to = start + wide(p);
        let rise = put_byte(values, masks, to, wv[i], wm[i]);
        return Entered {
            grows: 1,
            count: count + rise - 8,
        };
    }
    Entered {
        grows: 0,
        count: count,
    }
}

// The bytes of the entries from 0 on, while the position is inside the area. Answers the count then.
fn write_entries(
    site: Site,
    wv: &[u8; 260],
    wm: &[u8; 260],
    wk: &[u8; 260],
    values: &mut [u8],
    masks: &mut [u8],
    count: usize,
) -> usize
    requires ready { Ready site }
    requires le_count { (2080 ≤ count) × (count ≤ 4294969375) }
    ensures { Imaged site wv.now wm.now wk.now count values.old masks.old result values.new masks.new }
{
    let mut k = count;
    let n = (site.line.width + site.line.bytes) as u32;
    let mut p = site.line.address;
    for e in 0..n {
        if site.size <= p {
            return k;
        }
        let entered = write_entry(wv, wm, wk, e, site.start, p, values, masks, k);
        p += entered.grows;
        k = entered.count;
    }
    k
}

// The same for any site: one that is not within the bounds has nothing written. Answers the known bits of the area then.
pub fn write_image(
    site: Site,
    wv: &[u8; 260],
    wm: &[u8; 260],
    wk: &[u8; 260],
    values: &mut [u8],
    masks: &mut [u8],
) -> usize
    ensures { Written (is_ready site) (image_of site wv.now wk.now values.old) (image_of site wm.now wk.now masks.old) site.filled.known values.old masks.old result values.new masks.new }
{
    if !is_ready(site) {
        return wide(site.filled.known);
    }
    let count = count_from(site.filled.known);
    known_by(write_entries(site, wv, wm, wk, values, masks, count))
}
