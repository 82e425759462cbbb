// The positions of a pair of areas: value or mask differ, or one side lacks the position.
#![tactic(auto)]

ghost use Rattle.std.specs.Prelude.{◌≡◌, ◌&&◌, [], ◌∷◌, ◌<◌, ◌≤◌, length, leb};
ghost use Rattle.std.proofs.Math.Option.{some};
ghost use Rattle.difference.specs.Module.{cells};
ghost use Rattle.difference.specs.Changes.{paired, position_change};
ghost use Rattle.change_rows.specs.Room.{paired_masks};
ghost use Rattle.change_rows.specs.Walk.{Added, Walked, WalkedIf};
ghost use Rattle.position_changes.specs.Here.{cell_at, told_cell};

use cells::byte_at;
use change_rows::{POSITION_DIFFERS, POSITION_ONLY_NEW, POSITION_ONLY_OLD, Row, paired_masks, put};
use position_tests::{Cell, longer, same_cell};

// Adds a position's row behind n others, with the older's cell and the newer's, and answers how many there are then.
fn add(
    list: &mut [u32],
    n: usize,
    writing: bool,
    kind: u32,
    id: u32,
    at: u32,
    older: Cell,
    newer: Cell,
) -> usize
    requires { n < 4294967296 }
    ensures { Added writing list.old n (kind ∷ id ∷ at ∷ older.value ∷ older.mask ∷ newer.value ∷ newer.mask ∷ 0 ∷ []) result list.new }
{
    let row = Row {
        kind,
        id,
        first: at,
        second: u32::from(older.value),
        third: u32::from(older.mask),
        fourth: u32::from(newer.value),
        fifth: u32::from(newer.mask),
    };
    put(list, n, writing, row)
}

// A position that both sides have.
fn both(
    list: &mut [u32],
    n: usize,
    writing: bool,
    id: u32,
    at: u32,
    older: Cell,
    newer: Cell,
) -> usize
    requires { n < 4294967296 }
    ensures { Walked writing list.old n (position_change id at (some (record { value = older.value; mask = older.mask })) (some (record { value = newer.value; mask = newer.mask }))) 1 result list.new }
{
    if same_cell(older, newer) {
        return n;
    }
    add(list, n, writing, POSITION_DIFFERS, id, at, older, newer)
}

// Position i of an image, if it is there.
fn cell_at(values: &[u8], masks: &[u8], i: usize) -> Option<Cell>
    ensures { told_cell result ≡ cell_at values.now masks.now i }
{
    if values.len() <= i {
        return None;
    }
    Some(Cell {
        value: values[i],
        mask: byte_at(masks, i),
    })
}

// Position i: the older's values and masks are v and m, the newer's w and k.
fn position(
    v: &[u8],
    m: &[u8],
    w: &[u8],
    k: &[u8],
    i: usize,
    id: u32,
    list: &mut [u32],
    n: usize,
    writing: bool,
) -> usize
    requires { (n < 4294967296) × (i < 65536) }
    ensures { Walked writing list.old n (position_change id i (cell_at v.now m.now i) (cell_at w.now k.now i)) 1 result list.new }
{
    let at = i as u32;
    let none = Cell::default();
    match (cell_at(v, m, i), cell_at(w, k, i)) {
        (Some(older), Some(newer)) => both(list, n, writing, id, at, older, newer),
        (Some(older), None) => add(list, n, writing, POSITION_ONLY_OLD, id, at, older, none),
        (None, Some(newer)) => add(list, n, writing, POSITION_ONLY_NEW, id, at, none, newer),
        (None, None) => n,
    }
}

// All positions: the older's values and masks are v and m, the newer's w and k.
fn walk(
    v: &[u8],
    m: &[u8],
    w: &[u8],
    k: &[u8],
    id: u32,
    list: &mut [u32],
    n: usize,
    writing: bool,
) -> usize
    requires { (length v.now ≤ 65536) × (length w.now ≤ 65536) × (length m.now ≡ length v.now) × (length k.now ≡ length w.now) × (n ≤ 536870912) }
    ensures { Walked writing list.old n (paired (position_change id) 0 (cells v.now m.now) (cells w.now k.now)) 65536 result list.new }
{
    let end = longer(v, w);
    let mut count = n;
    for i in 0..end {
        count = position(v, m, w, k, i, id, list, count, writing);
    }
    count
}

// The positions of two images behind n rows: the older's values and masks are v and m, the newer's w and k. Of images that
// are longer than 65,536 or lack a mask, or behind more than 2^29 rows, nothing is added.
pub fn positions(
    v: &[u8],
    m: &[u8],
    w: &[u8],
    k: &[u8],
    id: u32,
    list: &mut [u32],
    n: usize,
    writing: bool,
) -> usize
    ensures { WalkedIf (paired_masks v.now m.now && (paired_masks w.now k.now && leb n 536870912)) writing list.old n (paired (position_change id) 0 (cells v.now m.now) (cells w.now k.now)) 65536 result list.new }
{
    if !paired_masks(v, m) {
        return n;
    }
    if !paired_masks(w, k) {
        return n;
    }
    if 536870912 < n {
        return n;
    }
    walk(v, m, w, k, id, list, n, writing)
}
