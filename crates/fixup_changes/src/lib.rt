// The fixups of an area that the other side lacks.
#![tactic(auto)]

ghost use Rattle.std.specs.Prelude.{◌≡◌, ◌<◌, ◌≤◌, eqb};
ghost use Rattle.format.specs.Lists.{pick};
ghost use Rattle.laws.specs.Rows.{fixup_row, fixups_in};
ghost use Rattle.change_rows.specs.Room.{few_of};
ghost use Rattle.change_rows.specs.Walk.{Walked, WalkedIf};
ghost use Rattle.fixup_changes.specs.Here.{lack_here, lacking_in};

use alike::fixup_like;
use change_rows::{FIXUP_ONLY_NEW, FIXUP_ONLY_OLD, Row, Side, few, put};
use fixup_rows::fixup_at;

// How many rows there are, and which of the other side's fixups is expected next.
#[derive(Clone, Copy)]
struct Turn {
    count: usize,
    expected: usize,
}

// The kind of a row for a fixup of one side.
fn kind(new: bool) -> u32
    ensures { result ≡ pick new 4 3 }
{
    if new { FIXUP_ONLY_NEW } else { FIXUP_ONLY_OLD }
}

// Whether fixup i lies in the area of an id.
fn lies_in(xs: &[u32], i: usize, id: u32) -> bool
    ensures { result ≡ eqb (fixup_row xs.now i).home id }
{
    let x = fixup_at(xs, i);
    x.home == id
}

// Fixup i of a side, if it lies in the area: it is looked for among those of the other side, first where it is expected.
fn fixup(
    new: bool,
    id: u32,
    this: &Side,
    i: usize,
    other: &Side,
    turn: Turn,
    list: &mut [u32],
    writing: bool,
) -> Turn
    requires { (turn.count < 4294967296) × (i < 1024) × (other.now.fixup_count ≤ 1024) }
    ensures { Walked writing list.old turn.count (lack_here new id this.now.text.now (fixup_row this.now.fixups.now i) i other.now.text.now (fixups_in other.now.fixups.now other.now.fixup_count)) 1 result.count list.new }
{
    if lies_in(this.fixups, i, id) {
        let n = other.fixup_count;
        let j = fixup_like(
            this.text,
            this.fixups,
            i,
            other.text,
            other.fixups,
            n,
            turn.expected,
        );
        if j < n {
            return Turn {
                expected: j + 1,
                ..turn
            };
        }
        let row = Row {
            kind: kind(new),
            id,
            first: i as u32,
            ..Row::default()
        };
        return Turn {
            count: put(list, turn.count, writing, row),
            ..turn
        };
    }
    turn
}

// The fixups of a side's area that the other side lacks.
fn walk(
    new: bool,
    id: u32,
    this: &Side,
    other: &Side,
    list: &mut [u32],
    count: usize,
    writing: bool,
) -> usize
    requires { (count ≤ 536870912) × (this.now.fixup_count ≤ 1024) × (other.now.fixup_count ≤ 1024) }
    ensures { Walked writing list.old count (lacking_in new id this.now.text.now (fixups_in this.now.fixups.now this.now.fixup_count) other.now.text.now (fixups_in other.now.fixups.now other.now.fixup_count)) 1024 result list.new }
{
    let mut turn = Turn { count, expected: 0 };
    for i in 0..this.fixup_count {
        turn = fixup(new, id, this, i, other, turn, list, writing);
    }
    turn.count
}

// The fixups of a side's area that the other side lacks, behind so many rows. Of more than 1,024 on a side, or behind more
// than 2^29 rows, nothing is added.
pub fn fixups(
    new: bool,
    id: u32,
    this: &Side,
    other: &Side,
    list: &mut [u32],
    count: usize,
    writing: bool,
) -> usize
    ensures { WalkedIf (few_of count this.now.fixup_count other.now.fixup_count) writing list.old count (lacking_in new id this.now.text.now (fixups_in this.now.fixups.now this.now.fixup_count) other.now.text.now (fixups_in other.now.fixups.now other.now.fixup_count)) 1024 result list.new }
{
    if few(count, this.fixup_count, other.fixup_count) {
        return walk(new, id, this, other, list, count, writing);
    }
    count
}
