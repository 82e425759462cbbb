// The index of a side's names: at each name's place the index plus 1 of the first symbol that has this place, or 0.
ghost use Rattle.std.specs.Prelude.{◌≡◌, ◌≤◌, ◌<◌, ◌-◌, suc};
ghost use Rattle.name_index.specs.Index.{hash_of, index_from, indexed, name_at, noted};

use crate::hash::hash;
use cells::{at, put_u32};
use symbol_rows::symbol_name;

// Notes a number at a place unless one stands there.
fn note(index: &mut [u32], place: usize, v: u32)
    ensures { index.new ≡ noted index.old place v }
{
    if at(index, place) == 0 {
        put_u32(index, place, v);
    }
}

// Notes symbol j.
fn note_symbol(text: &[u8], symbols: &[u32], j: usize, index: &mut [u32])
    requires { j < 65536 }
    ensures { index.new ≡ noted index.old (hash_of (name_at text.now symbols.now j)) (suc j) }
{
    let place = hash(symbol_name(text, symbols, j));
    note(index, place, j as u32 + 1)
}

// Notes n symbols.
fn note_all(text: &[u8], symbols: &[u32], n: usize, index: &mut [u32])
    requires { n ≤ 65536 }
    ensures { index.new ≡ index_from text.now symbols.now index.old 0 n }
{
    for j in 0..n {
        note_symbol(text, symbols, j, index);
    }
}

// Notes the names of n symbols in a lent index; of more than 65,536 none.
pub fn index_names(text: &[u8], symbols: &[u32], n: usize, index: &mut [u32])
    ensures { index.new ≡ indexed text.now symbols.now n index.old }
{
    if 65536 < n {
        return;
    }
    note_all(text, symbols, n, index)
}
