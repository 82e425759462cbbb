// What the row of a T and R record says: its numbers, and its content as a part of all content bytes.
#![tactic(auto)]

ghost use Rattle.std.specs.Prelude.{◌≡◌, ◌+◌, ◌*◌, get_or};
ghost use Rattle.row_parts.specs.Parts.{part_of};

use cells::wide;
use rooms::PAIR_WIDTH;

// A number of pair i's row, or 0 past the end.
pub fn pair_cell(rows: &[u32], i: usize, c: usize) -> u32
    ensures { result ≡ get_or rows.now (7 * i + c) 0 }
{
    row_parts::row_cell(rows, PAIR_WIDTH, i, c)
}

// The content bytes of pair i, or none where they do not fit.
pub fn pair_bytes<'a>(content: &'a [u8], rows: &[u32], i: usize) -> &'a [u8]
    ensures { result.now ≡ part_of content.now (get_or rows.now (7 * i + 3) 0) (get_or rows.now (7 * i + 4) 0) }
{
    let start = wide(pair_cell(rows, i, 3));
    let len = wide(pair_cell(rows, i, 4));
    row_parts::part(content, start, len)
}
