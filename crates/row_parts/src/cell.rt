// A part of a lent slice, and a number of a row.
ghost use Rattle.std.specs.Prelude.{◌≡◌, ◌+◌, ◌*◌, get_or};
ghost use Rattle.row_parts.specs.Parts.{part_of};

use cells::at;
use rooms::{AREA_WIDTH, FIXUP_WIDTH, SYMBOL_WIDTH};

// So many bytes from a place on, or an empty part where they do not fit.
#[tactic(auto, unfolding(crate::specs::Parts::part_of))]
pub fn part<'a>(s: &'a [u8], start: usize, len: usize) -> &'a [u8]
    ensures { result.now ≡ part_of s.now start len }
{
    match s.get(start..) {
        Some(rest) if len <= rest.len() => &rest[..len],
        _ => &[],
    }
}

// A number of row i of a table whose rows are so wide, or 0 past the end. Its tests are by the row first, so that the tests of one
// row's numbers, whose width is known to the caller, are made once.
pub fn row_cell(rows: &[u32], width: usize, i: usize, c: usize) -> u32
    ensures { result ≡ get_or rows.now (width * i + c) 0 }
{
    if width == 0 {
        return at(rows, c);
    }
    if rows.len() / width < i {
        return 0;
    }
    let start = width * i;
    if rows.len() - start <= c {
        return 0;
    }
    at(rows, start + c)
}

// A number of area i's row, or 0 past the end.
pub fn area_cell(rows: &[u32], i: usize, c: usize) -> u32
    ensures { result ≡ get_or rows.now (7 * i + c) 0 }
{
    row_cell(rows, AREA_WIDTH, i, c)
}

// A number of symbol i's row, or 0 past the end.
pub fn symbol_cell(rows: &[u32], i: usize, c: usize) -> u32
    ensures { result ≡ get_or rows.now (5 * i + c) 0 }
{
    row_cell(rows, SYMBOL_WIDTH, i, c)
}

// A number of fixup i's row, or 0 past the end.
pub fn fixup_cell(rows: &[u32], i: usize, c: usize) -> u32
    ensures { result ≡ get_or rows.now (9 * i + c) 0 }
{
    row_cell(rows, FIXUP_WIDTH, i, c)
}
