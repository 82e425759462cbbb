// The lines of areas and symbols.
ghost use Rattle.std.specs.Prelude.{◌≡◌, ◌+◌, ◌-◌, ◌*◌, get_or};
ghost use Rattle.laws.specs.Rows.{from, given_by};
ghost use Rattle.entry_out.specs.EntryOut.{given_addr};
ghost use Rattle.digits_out.specs.Wrote.{Wrote};
ghost use Rattle.row_texts.specs.RowRecords.{area_entry, entries_from, symbol_entry};
ghost use Rattle.entries_out.specs.EntriesOut.{entries_out, entry_line};

use area_rows::area_name;
use cells::wide;
use entry_out::{AreaNumbers, put_area, put_symbol};
use row_parts::{area_cell, symbol_cell};
use symbol_rows::symbol_name;

// The addr of area i, if it is given.
fn area_addr(areas: &[u32], i: usize) -> Option<u32>
    ensures { given_addr result ≡ given_by (get_or areas.now (7 * i + 4) 0) (get_or areas.now (7 * i + 5) 0) }
{
    if area_cell(areas, i, 4) == 1 {
        return Some(area_cell(areas, i, 5));
    }
    None
}

// The line of area i.
fn put_area_row(out: &mut [u8], at: usize, text: &[u8], areas: &[u32], i: usize) -> usize
    ensures { Wrote (entry_line (area_entry text.now areas.now i)) out.old at result out.new }
{
    let n = AreaNumbers {
        size: area_cell(areas, i, 2),
        flags: area_cell(areas, i, 3),
        addr: area_addr(areas, i),
    };
    put_area(out, at, area_name(text, areas, i), n)
}

// The lines of the areas from one index up to another.
fn put_areas(
    out: &mut [u8],
    at: usize,
    text: &[u8],
    areas: &[u32],
    start: usize,
    end: usize,
) -> usize
    ensures { Wrote (entries_out (from (area_entry text.now areas.now) start (end - start))) out.old at result out.new }
{
    let mut p = at;
    for i in start..end {
        p = put_area_row(out, p, text, areas, i);
    }
    p
}

// The line of symbol j.
fn put_symbol_row(out: &mut [u8], at: usize, text: &[u8], symbols: &[u32], j: usize) -> usize
    ensures { Wrote (entry_line (symbol_entry text.now symbols.now j)) out.old at result out.new }
{
    let is_ref = symbol_cell(symbols, j, 2) == 1;
    let value = symbol_cell(symbols, j, 3);
    put_symbol(out, at, symbol_name(text, symbols, j), is_ref, value)
}

// The lines of n areas and m symbols: before a symbol the areas up to its own, behind the last symbol the areas that are left.
pub fn put_entries(
    out: &mut [u8],
    at: usize,
    text: &[u8],
    areas: &[u32],
    n: usize,
    symbols: &[u32],
    m: usize,
) -> usize
    ensures { Wrote (entries_out (entries_from text.now areas.now n symbols.now 0 0 m)) out.old at result out.new }
{
    let mut p = at;
    let mut k = 0;
    for j in 0..m {
        let c = wide(symbol_cell(symbols, j, 4));
        p = put_areas(out, p, text, areas, k, c);
        p = put_symbol_row(out, p, text, symbols, j);
        k = c;
    }
    put_areas(out, p, text, areas, k, n)
}
