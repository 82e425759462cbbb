// What an area's row says: its name, size, kind, base and known bits; and the known bits written into it.
#![tactic(auto)]

ghost use Rattle.std.specs.Prelude.{◌≡◌, ◌+◌, ◌*◌, set};
ghost use Rattle.format.specs.Tables as the;
ghost use Rattle.laws.specs.Rows.{area_at, known_at};
ghost use Rattle.row_parts.specs.Parts.{name_in};
ghost use Rattle.area_rows.specs.Known.{narrowed};

use cells::{put_u32, wide};
use rooms::AREA_WIDTH;
use row_parts::{area_cell, part};

// An area's name, as a part of the text.
pub fn area_name<'a>(text: &'a [u8], areas: &[u32], i: usize) -> &'a [u8]
    ensures { result.now ≡ name_in text.now (area_at areas.now i).name }
{
    let start = wide(area_cell(areas, i, 0));
    let len = wide(area_cell(areas, i, 1));
    part(text, start, len)
}

pub fn area_size(areas: &[u32], i: usize) -> u32
    ensures { result ≡ (area_at areas.now i).size }
{
    area_cell(areas, i, 2)
}

// Flag 20 (hex).
pub fn is_code(areas: &[u32], i: usize) -> bool
    ensures { result ≡ the.code (area_at areas.now i) }
{
    let flags = area_cell(areas, i, 3);
    flags / 32 % 2 == 1
}

// Flag 08 (hex).
pub fn is_absolute(areas: &[u32], i: usize) -> bool
    ensures { result ≡ the.absolute (area_at areas.now i) }
{
    let flags = area_cell(areas, i, 3);
    flags / 8 % 2 == 1
}

// The addr that was given, or else 0.
pub fn base(areas: &[u32], i: usize) -> u32
    ensures { result ≡ the.base (area_at areas.now i) }
{
    let given = area_cell(areas, i, 4);
    let addr = area_cell(areas, i, 5);
    if given == 1 { addr } else { 0 }
}

// The known bits: the ones in the masks of a kept area, 0 for any other.
pub fn known_bits(areas: &[u32], i: usize) -> u32
    ensures { result ≡ known_at areas.now i }
{
    area_cell(areas, i, 6)
}

// A count as a number of a row, at most the largest.
fn narrow(n: usize) -> u32
    ensures { result ≡ narrowed n }
{
    if n <= 4294967295 {
        n as u32
    } else {
        4294967295
    }
}

// The known bits of area i written into its row; past the end nothing changes.
pub fn put_known(areas: &mut [u32], i: usize, known: usize)
    ensures { areas.new ≡ set areas.old (7 * i + 6) (narrowed known) }
{
    if areas.len() / 7 < i {
        return;
    }
    put_u32(areas, AREA_WIDTH * i + 6, narrow(known))
}
