// The kept areas, pair by pair.
#![tactic(auto)]

ghost use Rattle.std.specs.Prelude.{◌≡◌, false, true, ◌++◌, ◌+◌, ◌-◌, ◌<◌, ◌≤◌, length, ltb};
ghost use Rattle.format.specs.Lists.{pick};
ghost use Rattle.laws.specs.Rows.{area_at, areas_in, fixups_in};
ghost use Rattle.next_areas.specs.Next.{next_kept};
ghost use Rattle.difference.specs.Module.{cells, sizes, split};
ghost use Rattle.difference.specs.Changes.{paired, position_change};
ghost use Rattle.change_rows.specs.Walk.{Walked, WalkedIf};
ghost use Rattle.fixup_changes.specs.Here.{lacking_in};
ghost use Rattle.area_changes.specs.Here.{area_here, areas_fit, image_at};

use area_rows::area_size;
use cells::wide;
use change_rows::{Side, few, paired_masks};
use fixup_changes::fixups;
use lone_area::{only_new, only_old};
use next_areas::{next_kept, stretch};
use position_changes::positions;

// An area: its index, where its image starts, and the image's size.
#[derive(Clone, Copy)]
struct Place {
    index: usize,
    start: usize,
    size: usize,
}

// A pair of areas, whose images are all that the sides have.
fn pair(older: &Side, newer: &Side, id: u32, list: &mut [u32], count: usize, writing: bool) -> usize
    requires { (length older.now.values.now ≤ 65536) × (length newer.now.values.now ≤ 65536) × (length older.now.masks.now ≡ length older.now.values.now) × (length newer.now.masks.now ≡ length newer.now.values.now) × (older.now.fixup_count ≤ 1024) × (newer.now.fixup_count ≤ 1024) × (count ≤ 536000000) }
    ensures { Walked writing list.old count (paired (position_change id) 0 (cells older.now.values.now older.now.masks.now) (cells newer.now.values.now newer.now.masks.now) ++ (lacking_in false id older.now.text.now (fixups_in older.now.fixups.now older.now.fixup_count) newer.now.text.now (fixups_in newer.now.fixups.now newer.now.fixup_count) ++ lacking_in true id newer.now.text.now (fixups_in newer.now.fixups.now newer.now.fixup_count) older.now.text.now (fixups_in older.now.fixups.now older.now.fixup_count))) 67584 result list.new }
{
    let behind = positions(
        older.values,
        older.masks,
        newer.values,
        newer.masks,
        id,
        list,
        count,
        writing,
    );
    let middle = fixups(false, id, older, newer, list, behind, writing);
    fixups(true, id, newer, older, list, middle, writing)
}

// The areas of an id: one of the older's, and one of the newer's, where they are there.
fn area(
    older: &Side,
    one: Place,
    newer: &Side,
    two: Place,
    id: u32,
    list: &mut [u32],
    count: usize,
    writing: bool,
) -> usize
    requires { (length older.now.values.now ≤ 65536) × (length newer.now.values.now ≤ 65536) × (length older.now.masks.now ≡ length older.now.values.now) × (length newer.now.masks.now ≡ length newer.now.values.now) × (older.now.fixup_count ≤ 1024) × (newer.now.fixup_count ≤ 1024) × (count ≤ 536000000) }
    ensures { Walked writing list.old count (area_here older.now.text.now (fixups_in older.now.fixups.now older.now.fixup_count) newer.now.text.now (fixups_in newer.now.fixups.now newer.now.fixup_count) id (image_at older.now.values.now older.now.masks.now one.start one.size one.index older.now.area_count) (image_at newer.now.values.now newer.now.masks.now two.start two.size two.index newer.now.area_count)) 67584 result list.new }
{
    if one.index < older.area_count {
        if two.index < newer.area_count {
            let older = Side {
                values: stretch(older.values, one.start, one.size),
                masks: stretch(older.masks, one.start, one.size),
                ..*older
            };
            let newer = Side {
                values: stretch(newer.values, two.start, two.size),
                masks: stretch(newer.masks, two.start, two.size),
                ..*newer
            };
            return pair(&older, &newer, id, list, count, writing);
        }
        return only_old(list, count, writing, id);
    }
    if two.index < newer.area_count {
        return only_new(list, count, writing, id);
    }
    count
}

// The size of area i of n, or 0 behind the last.
fn size_at(areas: &[u32], n: usize, i: usize) -> usize
    ensures { (result ≡ pick (ltb i n) (area_at areas.now i).size 0) × (result < 4294967296) }
{
    if i < n {
        return wide(area_size(areas, i));
    }
    0
}

// The kept area behind area i of n; behind the last it stays.
fn after(areas: &[u32], n: usize, i: usize) -> usize
    ensures { result ≡ pick (ltb i n) (next_kept areas.now n (i + 1)) i }
{
    if i < n {
        return next_kept(areas, n, i + 1);
    }
    i
}

// All pairs of areas, in the order of their ids.
fn walk(older: &Side, newer: &Side, list: &mut [u32], writing: bool) -> usize
    requires { (length older.now.values.now ≤ 65536) × (length newer.now.values.now ≤ 65536) × (length older.now.masks.now ≡ length older.now.values.now) × (length newer.now.masks.now ≡ length newer.now.values.now) × (older.now.fixup_count ≤ 1024) × (newer.now.fixup_count ≤ 1024) × (older.now.area_count ≤ 64) × (newer.now.area_count ≤ 64) }
    ensures { Walked writing list.old 0 (paired (area_here older.now.text.now (fixups_in older.now.fixups.now older.now.fixup_count) newer.now.text.now (fixups_in newer.now.fixups.now newer.now.fixup_count)) 0 (split (sizes (areas_in older.now.areas.now older.now.area_count)) (cells older.now.values.now older.now.masks.now)) (split (sizes (areas_in newer.now.areas.now newer.now.area_count)) (cells newer.now.values.now newer.now.masks.now))) 8650752 result list.new }
{
    let (a, b) = (older.area_count, newer.area_count);
    let mut i = next_kept(older.areas, a, 0);
    let mut j = next_kept(newer.areas, b, 0);
    let mut start = 0;
    let mut begin = 0;
    let mut id: u32 = 0;
    let mut count = 0;
    while i < a || j < b {
        let one = Place {
            index: i,
            start,
            size: size_at(older.areas, a, i),
        };
        let two = Place {
            index: j,
            start: begin,
            size: size_at(newer.areas, b, j),
        };
        count = area(older, one, newer, two, id, list, count, writing);
        start += one.size;
        begin += two.size;
        i = after(older.areas, a, i);
        j = after(newer.areas, b, j);
        id += 1;
    }
    count
}

// Whether all can be walked: images with a mask for each position, at most 64 areas and 1,024 fixups on a side.
fn walkable(older: &Side, newer: &Side) -> bool
    ensures { result ≡ areas_fit older.now.area_count older.now.values.now older.now.masks.now older.now.fixup_count newer.now.area_count newer.now.values.now newer.now.masks.now newer.now.fixup_count }
{
    if !paired_masks(older.values, older.masks) {
        return false;
    }
    if !paired_masks(newer.values, newer.masks) {
        return false;
    }
    if 64 < older.area_count {
        return false;
    }
    if 64 < newer.area_count {
        return false;
    }
    few(0, older.fixup_count, newer.fixup_count)
}

// All pairs of areas, in the order of their ids. Where an image lacks a mask or there is more than a reading can give,
// nothing is added.
pub fn areas(older: &Side, newer: &Side, list: &mut [u32], writing: bool) -> usize
    ensures { WalkedIf (areas_fit older.now.area_count older.now.values.now older.now.masks.now older.now.fixup_count newer.now.area_count newer.now.values.now newer.now.masks.now newer.now.fixup_count) writing list.old 0 (paired (area_here older.now.text.now (fixups_in older.now.fixups.now older.now.fixup_count) newer.now.text.now (fixups_in newer.now.fixups.now newer.now.fixup_count)) 0 (split (sizes (areas_in older.now.areas.now older.now.area_count)) (cells older.now.values.now older.now.masks.now)) (split (sizes (areas_in newer.now.areas.now newer.now.area_count)) (cells newer.now.values.now newer.now.masks.now))) 8650752 result list.new }
{
    if walkable(older, newer) {
        return walk(older, newer, list, writing);
    }
    0
}
