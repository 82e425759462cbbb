// The rows of T and R records.
ghost use Rattle.std.specs.Prelude.{◌≡◌, suc, ◌≤◌, ◌^◌, ltb};
ghost use Rattle.header.specs.Told.{form_of, more_of};
ghost use Rattle.row_texts.specs.GoodRows.{good_fragment, good_fragments, good_pair, good_pairs};

use cells::{at, wide};
use header::{Form, Width};
use pair_cells::pair_cell;

// A mode below 2048, an entry below 256, an index below 65536.
fn fragment_good(rows: &[u32], i: usize) -> bool
    requires { i ≤ 8589934592 }
    ensures { result ≡ good_fragment rows.now i }
{
    let j = 3 * i;
    if 2048 <= at(rows, j) {
        return false;
    }
    if 256 <= at(rows, j + 1) {
        return false;
    }
    at(rows, j + 2) < 65536
}

// So many fragments from a row on, all inside.
fn fragments_good(rows: &[u32], first: u32, n: u32) -> bool
    ensures { result ≡ good_fragments rows.now first n }
{
    let f = wide(first);
    let k = wide(n);
    if rows.len() / 3 < f + k {
        return false;
    }
    for i in 0..k {
        if !fragment_good(rows, f + i) {
            return false;
        }
    }
    true
}

// An address that has no more bytes than the header says.
fn address_good(w: Width, a: u32) -> bool
    ensures { result ≡ ltb a (256 ^ suc (more_of w)) }
{
    match w {
        Width::Two => a < 65536,
        Width::Three => a < 16777216,
        Width::Four => true,
    }
}

// The i-th pair, beside so many content bytes.
fn pair_good(w: Width, pairs: &[u32], i: usize, content: usize, fragments: &[u32]) -> bool
    ensures { result ≡ good_pair (suc (more_of w)) pairs.now content fragments.now i }
{
    if !address_good(w, pair_cell(pairs, i, 1)) {
        return false;
    }
    if 65536 <= pair_cell(pairs, i, 2) {
        return false;
    }
    let end = wide(pair_cell(pairs, i, 3)) + wide(pair_cell(pairs, i, 4));
    if content < end {
        return false;
    }
    fragments_good(fragments, pair_cell(pairs, i, 5), pair_cell(pairs, i, 6))
}

// Whether each of n pairs can be written under a header, and lies inside with all that it points to; beside so many content bytes.
pub fn pairs_good(form: Form, pairs: &[u32], n: usize, content: usize, fragments: &[u32]) -> bool
    ensures { result ≡ good_pairs (form_of form).address_length pairs.now n content fragments.now }
{
    if pairs.len() / 7 < n {
        return false;
    }
    for i in 0..n {
        if !pair_good(form.width, pairs, i, content, fragments) {
            return false;
        }
    }
    true
}
