// What one T and R pair, out of the rows of records, alone leaves at a position of an area.
ghost use Rattle.std.specs.Prelude.{◌≤◌};
ghost use Rattle.one_cell.specs.Cell.{CellIs};
ghost use Rattle.one_position.specs.Pair.{LeftBy, Tells};

use cells::{at, wide};
use homes::Home;
use one_cell::{Cell, cell_of};
use record_parts::{columns_at, line_at};
use sites::Line;

// The columns of the fragments as arrays.
fn by_columns(line: Line, home: Home, bs: &[u8], ms: &[u32; 64], es: &[u32; 64], want: u32) -> Cell
    ensures { CellIs line home bs.now ms.now es.now want result }
{
    cell_of(line, home, bs, ms, es, want)
}

// A pair's bytes, and the rows of its fragments from a place on.
fn by_rows(line: Line, home: Home, bs: &[u8], fragments: &[u32], row: usize, want: u32) -> Cell
    ensures { LeftBy line home bs.now fragments.now row want result }
{
    let mut ms = [0u32; 64];
    let mut es = [0u32; 64];
    let mut xs = [0u32; 64];
    columns_at(fragments, row, line.fragments, &mut ms, &mut es, &mut xs);
    by_columns(line, home, bs, &ms, &es, want)
}

// The pair whose row begins at a place. One of another area leaves nothing there.
pub(crate) fn pair_tells(
    pairs: &[u32],
    content: &[u8],
    fragments: &[u32],
    p: usize,
    big: bool,
    width: usize,
    home: Home,
    want: u32,
) -> Cell
    requires { p ≤ 28672 }
    ensures { Tells pairs.now content.now fragments.now p big width home want result }
{
    let line = line_at(pairs, p, big, width);
    if line.area != home.area {
        return Cell::Nothing;
    }
    let first = wide(at(pairs, p + 3));
    let end = first + wide(at(pairs, p + 4));
    if content.len() < end {
        return Cell::Misfit;
    }
    let row = 3 * wide(at(pairs, p + 5));
    by_rows(line, home, &content[first..end], fragments, row, want)
}
