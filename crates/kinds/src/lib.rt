// The positions of images by what is known of them: known, partly known, relocated, and written by no line.
#![tactic(auto)]

ghost use Rattle.std.specs.Prelude.{◌≡◌, eqb, get_or};
ghost use Rattle.format.specs.Lists.{pick};
ghost use Rattle.kinds.specs.Kinds.{kind_count, kind_of, kinds_in};

use cells::byte_at;

// How many positions there are of each kind.
#[derive(Clone, Copy)]
pub struct Kinds {
    pub unwritten: usize,
    pub known: usize,
    pub partly: usize,
    pub relocated: usize,
}

// The kind of a position: 0 no line writes it, 1 all bits are known, 2 some, 3 none.
fn kind_of(mask: u8, mark: u8) -> u32
    ensures { result ≡ kind_of mask mark }
{
    if mark == 0 {
        return 0;
    }
    if mask == 255 {
        return 1;
    }
    if mask == 0 { 3 } else { 2 }
}

// 1 if position i is of a kind.
fn one_if(masks: &[u8], map: &[u8], i: usize, kind: u32) -> usize
    ensures { result ≡ pick (eqb (kind_of (get_or masks.now i 0) (get_or map.now i 0)) kind) 1 0 }
{
    if kind_of(byte_at(masks, i), byte_at(map, i)) == kind {
        1
    } else {
        0
    }
}

// How many of the first n positions are of a kind.
fn count(masks: &[u8], map: &[u8], n: usize, kind: u32) -> usize
    ensures { result ≡ kind_count masks.now map.now kind 0 n }
{
    let mut many: usize = 0;
    for i in 0..n {
        many += one_if(masks, map, i, kind);
    }
    many
}

// How many of the first n positions are of each kind, by their masks and the map of what is written.
pub fn kinds_in(masks: &[u8], map: &[u8], n: usize) -> Kinds
    ensures { result ≡ kinds_in masks.now map.now n }
{
    Kinds {
        unwritten: count(masks, map, n, 0),
        known: count(masks, map, n, 1),
        partly: count(masks, map, n, 2),
        relocated: count(masks, map, n, 3),
    }
}
