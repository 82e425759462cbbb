// The rows given, and the first that points out of the pool.
ghost use Rattle.std.specs.Prelude.{◌≡◌};
ghost use Rattle.book.specs.Given.{field_at, entry_at, in_pool, pooled};

use book_rows::part_of;
use cells::{at, wide};

// A number of the i-th row, or 0 past the end.
pub fn given_cell(rows: &[u32], i: u32, k: u32) -> u32
    ensures { result ≡ field_at rows.now i k }
{
    at(rows, 5 * wide(i) + wide(k))
}

// The name of the i-th entry, as a part of the pool.
pub fn given_name<'a>(pool: &'a [u8], rows: &[u32], i: u32) -> &'a [u8]
    ensures { result.now ≡ (entry_at pool.now rows.now i).name }
{
    let start = given_cell(rows, i, 0);
    let long = given_cell(rows, i, 1);
    part_of(pool, wide(start), long)
}

// Whether the name, the values and the masks of the i-th row lie in the pool.
fn in_pool(pool: &[u8], rows: &[u32], i: u32) -> bool
    ensures { result ≡ in_pool pool.now rows.now i }
{
    let size = wide(given_cell(rows, i, 4));
    if pool.len() < wide(given_cell(rows, i, 0)) + wide(given_cell(rows, i, 1)) {
        return false;
    }
    if pool.len() < wide(given_cell(rows, i, 2)) + size {
        return false;
    }
    wide(given_cell(rows, i, 3)) + size <= pool.len()
}

// The first of n rows that points out of the pool, or n.
pub fn first_out(pool: &[u8], rows: &[u32], n: u32) -> u32
    ensures { result ≡ pooled pool.now rows.now 0 n }
{
    for i in 0..n {
        if !in_pool(pool, rows, i) {
            return i;
        }
    }
    n
}
