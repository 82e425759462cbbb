// The first symbol of a name.
ghost use Rattle.std.specs.Prelude.{◌≡◌};
ghost use Rattle.alike.specs.Looked.{first_of};
ghost use Rattle.name_index.specs.Index.{found_in, named_at};

use crate::hash::hash;
use alike::same_name;
use cells::{at, wide};
use row_parts::symbol_cell;

// Whether symbol j has this name. Most names have another length, which the row tells before the text is asked; a name that does
// not fit in the text is empty, whatever its row tells.
#[inline(always)]
fn named(name: &[u8], text: &[u8], symbols: &[u32], j: usize) -> bool
    ensures { result ≡ named_at name.now text.now symbols.now j }
{
    let len = wide(symbol_cell(symbols, j, 1));
    if name.len() != len && !name.is_empty() {
        return false;
    }
    let start = wide(symbol_cell(symbols, j, 0));
    match text.get(start..start + len) {
        Some(there) => same_name(name, there),
        None => name.is_empty(),
    }
}

// The first of n symbols that has this name, or n, by looking at each.
fn searched(name: &[u8], text: &[u8], symbols: &[u32], n: usize) -> usize
    ensures { result ≡ first_of (named_at name.now text.now symbols.now) n }
{
    for j in 0..n {
        if named(name, text, symbols, j) {
            return j;
        }
    }
    n
}

// The first of n symbols that has this name, or n: the one that the index has at the name's place, if it has the name; else each is looked at.
pub fn first_named(name: &[u8], text: &[u8], symbols: &[u32], n: usize, index: &[u32]) -> usize
    ensures { result ≡ found_in name.now text.now symbols.now n index.now }
{
    let place = hash(name);
    let noted = wide(at(index, place));
    if noted == 0 {
        return searched(name, text, symbols, n);
    }
    let j = noted - 1;
    if named(name, text, symbols, j) {
        return j;
    }
    searched(name, text, symbols, n)
}
