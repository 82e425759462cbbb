// From the last pair back to the first: the first of them that writes the position.
ghost use Rattle.std.specs.Prelude.{◌≡◌, ◌≤◌};
ghost use Rattle.one_position.specs.Back.{is_byte, found_of, LastIs};

use crate::pair::pair_tells;
use cells::at;
use homes::Home;
use one_cell::Cell;
use position_answer::Explained;
use rooms::PAIR_WIDTH;

// Whether a pair writes there.
fn is_byte(c: Cell) -> bool
    ensures { result ≡ is_byte c }
{
    match c {
        Cell::Byte { value: _, mask: _ } => true,
        Cell::Nothing => false,
        Cell::Beyond => false,
        Cell::Misfit => false,
    }
}

// What a pair writes there, with the place of its T line.
fn found(c: Cell, place: u32) -> Explained
    ensures { result ≡ found_of c place }
{
    match c {
        Cell::Byte { value, mask } => Explained::Wrote {
            value: value,
            mask: mask,
            place: place,
        },
        Cell::Nothing => Explained::Unwritten,
        Cell::Beyond => Explained::Unwritten,
        Cell::Misfit => Explained::Unwritten,
    }
}

// The rows of n pairs from the last on.
pub(crate) fn last_of(
    pairs: &[u32],
    content: &[u8],
    fragments: &[u32],
    n: usize,
    big: bool,
    width: usize,
    home: Home,
    want: u32,
) -> Explained
    requires { n ≤ 4096 }
    ensures { LastIs pairs.now content.now fragments.now n big width home want result }
{
    for k in (0..n).rev() {
        let p = PAIR_WIDTH * k;
        let c = pair_tells(pairs, content, fragments, p, big, width, home, want);
        if is_byte(c) {
            return found(c, at(pairs, p));
        }
    }
    Explained::Unwritten
}
