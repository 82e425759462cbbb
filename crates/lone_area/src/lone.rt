// An area of the older alone, and one of the newer alone.
ghost use Rattle.difference.specs.Changes.{area, newer, older};
ghost use Rattle.difference.specs.Rows.{change_numbers};
ghost use Rattle.change_rows.specs.Walk.{Put};

use change_rows::{AREA_ONLY_NEW, AREA_ONLY_OLD, Row, put};

// Adds the row of an area that only the older has behind n others, and answers how many there are then.
pub fn only_old(list: &mut [u32], n: usize, writing: bool, id: u32) -> usize
    ensures { Put writing list.old n (change_numbers (area older id)) result list.new }
{
    let row = Row {
        kind: AREA_ONLY_OLD,
        id,
        ..Row::default()
    };
    put(list, n, writing, row)
}

// The same for an area that only the newer has.
pub fn only_new(list: &mut [u32], n: usize, writing: bool, id: u32) -> usize
    ensures { Put writing list.old n (change_numbers (area newer id)) result list.new }
{
    let row = Row {
        kind: AREA_ONLY_NEW,
        id,
        ..Row::default()
    };
    put(list, n, writing, row)
}
