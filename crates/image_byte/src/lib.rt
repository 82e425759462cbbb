// A byte with its mask stored in the images of an area, and by how much the ones in the masks rise by it: those of the new mask come on, and those of the old go off.
// What is answered stands 8 above that, so that it does not fall below 0.
#![tactic(auto)]

ghost use Rattle.std.specs.Prelude.{◌≡◌, ◌≤◌, set};
ghost use Rattle.std.specs.Int.Count.{ones};
ghost use Rattle.image_byte.specs.Count.{Marked};

use cells::{put, wide};

// The ones in a mask.
fn ones_in(m: u8) -> usize
    ensures { (result ≡ ones m) × (result ≤ 8) }
{
    wide(u8::count_ones(m))
}

// A mask stored; past the end nothing changes.
pub fn put_mask(masks: &mut [u8], to: usize, m: u8) -> usize
    ensures { Marked to m 8 masks.old result masks.new }
{
    if masks.len() <= to {
        return 8;
    }
    let old = masks[to];
    masks[to] = m;
    8 + ones_in(m) - ones_in(old)
}

// A byte and its mask stored.
pub fn put_byte(values: &mut [u8], masks: &mut [u8], to: usize, v: u8, m: u8) -> usize
    ensures { (values.new ≡ set values.old to v) × Marked to m 8 masks.old result masks.new }
{
    put(values, to, v);
    put_mask(masks, to, m)
}
