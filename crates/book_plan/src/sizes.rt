// The sizes of an entry given: what of its name, values and masks the pool has.
ghost use Rattle.std.specs.Prelude.{◌≡◌, ◌*◌, ◌^◌, ◌≤◌, length};
ghost use Rattle.book.specs.Contents.{part};
ghost use Rattle.book.specs.Entries.{body};
ghost use Rattle.book.specs.Given.{entry_at};

use book_given::given_cell;
use book_rows::part_of;
use cells::wide;

// How many of n bytes from a place on the pool has.
pub fn length_in(pool: &[u8], from: u32, n: u32) -> u32
    ensures { result ≡ length (part pool.now from n) }
{
    let bytes = part_of(pool, wide(from), n);
    bytes.len() as u32
}

// How many bytes the name of the i-th entry has.
pub fn name_size(pool: &[u8], rows: &[u32], i: u32) -> u32
    ensures { result ≡ length (entry_at pool.now rows.now i).name }
{
    let start = given_cell(rows, i, 0);
    let n = given_cell(rows, i, 1);
    length_in(pool, start, n)
}

// How many values the i-th entry has.
pub fn values_size(pool: &[u8], rows: &[u32], i: u32) -> u32
    ensures { result ≡ length (entry_at pool.now rows.now i).values }
{
    let start = given_cell(rows, i, 2);
    let n = given_cell(rows, i, 4);
    length_in(pool, start, n)
}

// How many masks it has.
fn masks_size(pool: &[u8], rows: &[u32], i: u32) -> u32
    ensures { result ≡ length (entry_at pool.now rows.now i).masks }
{
    let start = given_cell(rows, i, 3);
    let n = given_cell(rows, i, 4);
    length_in(pool, start, n)
}

// How many bytes the body of the i-th entry has.
pub fn body_length(pool: &[u8], rows: &[u32], i: u32) -> usize
    ensures { (result ≡ length (body (entry_at pool.now rows.now i))) × (result ≤ 3 * 2 ^ 32) }
{
    let name = name_size(pool, rows, i);
    let values = values_size(pool, rows, i);
    let masks = masks_size(pool, rows, i);
    wide(name) + wide(values) + wide(masks)
}
