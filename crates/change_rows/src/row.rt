// A row of eight numbers, added to the list or only counted.
ghost use Rattle.std.specs.Prelude.{◌≡◌, [], ◌∷◌};
ghost use Rattle.std.proofs.lemmas.List.Edits.{sets};
ghost use Rattle.format.specs.Lists.{pick};
ghost use Rattle.change_rows.specs.Walk.{Put};

use cells::copy_u32s;

// A row: its kind, the area's id, and what the kind gives: a position with the older's value and mask and the newer's; the
// index of a fixup's row; the index of a symbol's row on each side.
#[derive(Clone, Copy, Default)]
pub struct Row {
    pub kind: u32,
    pub id: u32,
    pub first: u32,
    pub second: u32,
    pub third: u32,
    pub fourth: u32,
    pub fifth: u32,
}

// Stores the eight numbers of a row from a place on, if it is to be written. The last is 0.
fn store(list: &mut [u32], start: usize, writing: bool, row: Row)
    ensures { list.new ≡ pick writing (sets list.old start (row.kind ∷ row.id ∷ row.first ∷ row.second ∷ row.third ∷ row.fourth ∷ row.fifth ∷ 0 ∷ [])) list.old }
{
    if writing {
        let numbers = [
            row.kind, row.id, row.first, row.second, row.third, row.fourth, row.fifth, 0,
        ];
        copy_u32s(list, start, &numbers, 8);
    }
}

// Adds a row behind n others, and answers how many there are then. Behind 4,294,967,296 rows none is added.
pub fn put(list: &mut [u32], n: usize, writing: bool, row: Row) -> usize
    ensures { Put writing list.old n (row.kind ∷ row.id ∷ row.first ∷ row.second ∷ row.third ∷ row.fourth ∷ row.fifth ∷ 0 ∷ []) result list.new }
{
    if 4294967296 <= n {
        return n;
    }
    store(list, 8 * n, writing, row);
    n + 1
}
