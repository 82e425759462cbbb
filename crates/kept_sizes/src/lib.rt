// The kept areas: how many there are, and their sizes in all.
#![tactic(auto)]

ghost use Rattle.std.specs.Prelude.{◌≡◌, ◌≤◌, ◌<◌, leb};
ghost use Rattle.format.specs.Lists.{pick};
ghost use Rattle.format.specs.Tables.{kept_size};
ghost use Rattle.laws.specs.Rows.{area_at};
ghost use Rattle.kept_sizes.specs.Sizes.{SizesAre, few};

use cells::wide;
use rooms::AREA_ROOM;

// How many areas are kept, and the positions of their images.
#[derive(Clone, Copy)]
pub struct Sizes {
    pub kept: usize,
    pub total: usize,
}

// The size of an area's image: 0 unless it is a code area.
fn kept_size(areas: &[u32], j: usize) -> usize
    ensures { (result ≡ kept_size (area_at areas.now j)) × (result < 4294967296) }
{
    let size = area_rows::area_size(areas, j);
    if area_rows::is_code(areas, j) {
        return wide(size);
    }
    0
}

// 1 for an image of one position or more.
fn one_if(size: usize) -> usize
    ensures { result ≡ pick (leb 1 size) 1 0 }
{
    if 1 <= size { 1 } else { 0 }
}

// The kept ones of the first n areas.
fn sizes_in(areas: &[u32], n: usize) -> Sizes
    requires { n ≤ 64 }
    ensures { SizesAre areas.now n result }
{
    let mut kept = 0;
    let mut total = 0;
    for j in 0..n {
        let size = kept_size(areas, j);
        kept += one_if(size);
        total += size;
    }
    Sizes {
        kept: kept,
        total: total,
    }
}

// The kept ones of the first n rows of an array of 64.
#[tactic(auto, unfolding(crate::specs::Sizes::few))]
pub fn sizes_of(areas: &[u32; AREA_ROOM], n: usize) -> Sizes
    ensures { SizesAre areas.now (few n) result }
{
    sizes_in(areas, n.min(64))
}
