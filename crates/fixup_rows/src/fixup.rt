// What a fixup's row says.
ghost use Rattle.std.specs.Prelude.{◌≡◌};
ghost use Rattle.laws.specs.Rows.{fixup_row};
ghost use Rattle.fixup_rows.specs.Fixups.{name_of, told_fixup};

use cells::wide;
use row_parts::{fixup_cell, part};

// A fixup: the id of its area, its position, size and mode, what it refers to, and its number. It refers to an
// outside symbol by the place and the length of its name, or to the area of an id; and to a value behind that.
#[derive(Clone, Copy)]
pub struct Fixup {
    pub home: u32,
    pub position: u32,
    pub size: u32,
    pub mode: u32,
    pub outside: u32,
    pub what: u32,
    pub length: u32,
    pub value: u32,
    pub number: u32,
}

// Fixup i.
#[inline(always)]
pub fn fixup_at(fixups: &[u32], i: usize) -> Fixup
    ensures { told_fixup result ≡ fixup_row fixups.now i }
{
    Fixup {
        home: fixup_cell(fixups, i, 0),
        position: fixup_cell(fixups, i, 1),
        size: fixup_cell(fixups, i, 2),
        mode: fixup_cell(fixups, i, 3),
        outside: fixup_cell(fixups, i, 4),
        what: fixup_cell(fixups, i, 5),
        length: fixup_cell(fixups, i, 6),
        value: fixup_cell(fixups, i, 7),
        number: fixup_cell(fixups, i, 8),
    }
}

// The name of the outside symbol that fixup i refers to, as a part of the text.
pub fn fixup_name<'a>(text: &'a [u8], fixups: &[u32], i: usize) -> &'a [u8]
    ensures { result.now ≡ name_of text.now (fixup_row fixups.now i) }
{
    let start = wide(fixup_cell(fixups, i, 5));
    let len = wide(fixup_cell(fixups, i, 6));
    part(text, start, len)
}
