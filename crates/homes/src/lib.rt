// Where an area's image is: found once, it serves all pairs of the area.
#![tactic(auto)]

ghost use Rattle.std.specs.Prelude.{◌≡◌, ◌≤◌, ◌<◌, leb};
ghost use Rattle.format.specs.Lists.{pick};
ghost use Rattle.format.specs.Tables.{kept_size};
ghost use Rattle.laws.specs.Rows.{area_at};
ghost use Rattle.homes.specs.Home.{home_at, no_home};

use cells::at;
use rooms::AREA_WIDTH;

// An area's index, its id plus 1, where its image starts, and the image's size; all but the index are 0 for an area that is not kept.
#[derive(Clone, Copy)]
pub struct Home {
    pub area: usize,
    pub id: u32,
    pub start: usize,
    pub size: u32,
}

// The size of the image of the area j.
fn size_at(areas: &[u32], j: usize) -> u32
    requires { j < 64 }
    ensures { result ≡ kept_size (area_at areas.now j) }
{
    let size = at(areas, AREA_WIDTH * j + 2);
    let flags = at(areas, AREA_WIDTH * j + 3);
    if flags / 32 % 2 == 1 { size } else { 0 }
}

// 1 for an image of this size, 0 for none.
fn one_if(z: u32) -> u32
    ensures { result ≡ pick (leb 1 z) 1 0 }
{
    if 1 <= z { 1 } else { 0 }
}

// The home of an area that is not kept.
fn no_home(i: usize) -> Home
    ensures { result ≡ no_home i }
{
    Home {
        area: i,
        id: 0,
        start: 0,
        size: 0,
    }
}

// The home of the area i of n, whose image has this size.
fn kept_home(areas: &[u32], n: usize, i: usize, size: u32) -> Home
    requires n_bound { (n ≤ 64) × (i < n) }
    requires size_value { (size ≡ kept_size (area_at areas.now i)) × (1 ≤ size) }
    ensures { result ≡ home_at areas.now n i }
{
    let mut k: u32 = 0;
    let mut s: usize = 0;
    for j in 0..i {
        let z = size_at(areas, j);
        k += one_if(z);
        s += z as usize;
    }
    Home {
        area: i,
        id: k + 1,
        start: s,
        size: size,
    }
}

// The home of the area i of n; none is kept where there are more than 64.
pub fn home_at(areas: &[u32], n: usize, i: usize) -> Home
    ensures { result ≡ home_at areas.now n i }
{
    if 64 < n {
        return no_home(i);
    }
    if n <= i {
        return no_home(i);
    }
    let size = size_at(areas, i);
    if size == 0 {
        return no_home(i);
    }
    kept_home(areas, n, i, size)
}
