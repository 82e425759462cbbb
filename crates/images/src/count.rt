// A count of the ones in masks, taken on while full masks are written.
// A count stands 2,080 above the known bits: 260 entries of 8 bits take no more off, so it does not fall below 0 on the way.
ghost use Rattle.std.specs.Prelude.{◌≡◌, ◌≤◌, ◌+◌, ◌-◌};
ghost use Rattle.images.specs.Count.{Filled};

use cells::wide;
use image_byte::put_mask;

// Full masks from a place on, k of them.
pub(crate) fn fill_masks(masks: &mut [u8], to: usize, k: usize, count: usize) -> usize
    requires { (to ≤ 65536) × (k ≤ 256) × (2080 ≤ count) × (count ≤ 4294969375) }
    ensures { Filled to k count masks.old result masks.new }
{
    let mut c = count;
    for i in 0..k {
        c = c + put_mask(masks, to + i, 255) - 8;
    }
    c
}

// A count to begin with.
pub(crate) fn count_from(known: u32) -> usize
    ensures { (result ≡ known + 2080) × (result ≤ 4294969375) }
{
    wide(known) + 2080
}

// The known bits that a count comes to.
pub(crate) fn known_by(count: usize) -> usize
    ensures { result ≡ count - 2080 }
{
    count.saturating_sub(2080)
}
