// The bytes of a pair without fragments: its content as it is, and no work line is needed for it.
ghost use Rattle.std.specs.Prelude.{◌≡◌, ◌&&◌, ◌≤◌, leb, length};
ghost use Rattle.format.specs.Lists.{pick};
ghost use Rattle.sites.specs.Site.{Ready, is_ready};
ghost use Rattle.images.specs.Image.{plain_values, plain_masks, Plain, Written};

use crate::count::{count_from, fill_masks, known_by};
use cells::{copy_bytes, wide};
use sites::{Site, is_ready};

// The lesser of two counts.
fn fewer(a: usize, b: usize) -> usize
    ensures { (result ≡ pick (leb a b) a b) × (result ≤ a) }
{
    a.min(b)
}

// The content bytes and full masks from the address on, as far as they lie inside the area. Answers the count then.
fn lay_plain(site: Site, bs: &[u8], values: &mut [u8], masks: &mut [u8], count: usize) -> usize
    requires ready { Ready site }
    requires le_count { (2080 ≤ count) × (count ≤ 4294969375) }
    requires bytes_in_bounds { site.line.bytes ≤ length bs.now }
    ensures { Plain site bs.now count values.old masks.old result values.new masks.new }
{
    if site.size <= site.line.address {
        return count;
    }
    let room = wide(site.size - site.line.address);
    let k = fewer(site.line.bytes, room);
    let to = site.start + wide(site.line.address);
    copy_bytes(values, to, bs, k);
    fill_masks(masks, to, k, count)
}

// The same for any site and any bytes: where the site is not within the bounds, or fewer bytes are lent, nothing is written. Answers the known bits of the area then.
pub fn write_plain(site: Site, bs: &[u8], values: &mut [u8], masks: &mut [u8]) -> usize
    ensures { Written (is_ready site && leb site.line.bytes (length bs.now)) (plain_values site bs.now values.old) (plain_masks site masks.old) site.filled.known values.old masks.old result values.new masks.new }
{
    if !is_ready(site) {
        return wide(site.filled.known);
    }
    if bs.len() < site.line.bytes {
        return wide(site.filled.known);
    }
    let count = count_from(site.filled.known);
    known_by(lay_plain(site, bs, values, masks, count))
}
