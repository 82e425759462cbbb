// The fragments' rows, and the symbols that they refer to.
ghost use Rattle.std.specs.Prelude.{◌≡◌, ◌*◌, ◌+◌, get_or};
ghost use Rattle.alike.specs.Looked.{first_of};
ghost use Rattle.kept_symbols.specs.Staying.{refers_to, to_symbol};

use cells::{at, wide};

// Numbers in a row of the fragments.
const FRAGMENT_WIDTH: usize = 3;

// A number of fragment i's row, or 0 past the end.
fn fragment_cell(rows: &[u32], i: usize, c: usize) -> u32
    ensures { result ≡ get_or rows.now (3 * i + c) 0 }
{
    if rows.len() / 3 < i {
        return 0;
    }
    let start = FRAGMENT_WIDTH * i;
    if rows.len() - start <= c {
        return 0;
    }
    at(rows, start + c)
}

// Whether fragment i refers to a symbol.
pub fn to_symbol(fragments: &[u32], i: usize) -> bool
    ensures { result ≡ to_symbol fragments.now i }
{
    fragment_cell(fragments, i, 0) / 2 % 2 == 1
}

// Whether fragment i refers to symbol j.
fn refers_to(fragments: &[u32], j: usize, i: usize) -> bool
    ensures { result ≡ refers_to fragments.now j i }
{
    if to_symbol(fragments, i) {
        return wide(fragment_cell(fragments, i, 2)) == j;
    }
    false
}

// The first of n fragments that refers to symbol j, or n.
pub fn referring(fragments: &[u32], n: usize, j: usize) -> usize
    ensures { result ≡ first_of (refers_to fragments.now j) n }
{
    for i in 0..n {
        if refers_to(fragments, j, i) {
            return i;
        }
    }
    n
}
