// The book of entries in order, laid into lent bytes: the number of entries, the rows, the bodies.
ghost use Rattle.std.specs.Prelude.{◌≡◌, true, ◌+◌, ◌*◌, ◌^◌, ◌≤◌, ◌<◌, get_or, length};
ghost use Rattle.std.proofs.lemmas.List.Edits.{sets};
ghost use Rattle.format.specs.Lists.{flat};
ghost use Rattle.book.specs.Contents.{row_bytes, row_for, rows_for, small_rows, start};
ghost use Rattle.book.specs.Entries.{body};
ghost use Rattle.book.specs.Given.{entry_at};
ghost use Rattle.book.specs.Written.{book_of};
ghost use Rattle.book_write.specs.Listed.{listed};

use crate::entry::{put_body, put_entry, put_number};
use book_plan::body_length;
use cells::{at, wide};

// The row of the i-th entry by the list of numbers, whose body begins at a place.
fn put_nth_row(out: &mut [u8], pool: &[u8], rows: &[u32], order: &[u32], i: u32, to: usize)
    requires { to + length (entry_at pool.now rows.now (get_or order.now i 0)).name < 2 ^ 32 }
    ensures { out.new ≡ sets out.old (start i) (row_bytes (row_for to (entry_at pool.now rows.now (get_or order.now i 0)))) }
{
    let k = wide(i);
    put_entry(out, 4 + 16 * k, pool, rows, at(order, k), to);
}

// The body of the i-th entry by the list of numbers, laid at a place.
fn put_nth_body(out: &mut [u8], pool: &[u8], rows: &[u32], order: &[u32], i: u32, to: usize)
    requires { to < 2 ^ 40 }
    ensures { out.new ≡ sets out.old to (body (entry_at pool.now rows.now (get_or order.now i 0))) }
{
    let k = wide(i);
    put_body(out, to, pool, rows, at(order, k));
}

// Where the body of the i-th entry by the list of numbers ends, if it begins at a place.
fn nth_end(pool: &[u8], rows: &[u32], order: &[u32], i: u32, to: usize) -> usize
    requires { to < 2 ^ 40 }
    ensures { (result ≡ to + length (body (entry_at pool.now rows.now (get_or order.now i 0)))) × (result ≤ to + 3 * 2 ^ 32) }
{
    let k = wide(i);
    to + body_length(pool, rows, at(order, k))
}

// The rows of n entries.
fn put_contents(out: &mut [u8], pool: &[u8], rows: &[u32], order: &[u32], n: u32)
    requires { small_rows (rows_for (start n) (listed pool.now rows.now order.now 0 n)) ≡ true }
    ensures { out.new ≡ sets out.old 4 (flat row_bytes (rows_for (start n) (listed pool.now rows.now order.now 0 n))) }
{
    let mut to: usize = 4 + 16 * wide(n);
    for i in 0..n {
        put_nth_row(out, pool, rows, order, i, to);
        to = nth_end(pool, rows, order, i, to);
    }
}

// The bodies of n entries.
fn put_bodies(out: &mut [u8], pool: &[u8], rows: &[u32], order: &[u32], n: u32)
    requires { small_rows (rows_for (start n) (listed pool.now rows.now order.now 0 n)) ≡ true }
    ensures { out.new ≡ sets out.old (start n) (flat body (listed pool.now rows.now order.now 0 n)) }
{
    let mut to: usize = 4 + 16 * wide(n);
    for i in 0..n {
        put_nth_body(out, pool, rows, order, i, to);
        to = nth_end(pool, rows, order, i, to);
    }
}

// The book of n entries by the list of their numbers.
pub(crate) fn put_book(out: &mut [u8], pool: &[u8], rows: &[u32], order: &[u32], n: u32)
    requires { small_rows (rows_for (start n) (listed pool.now rows.now order.now 0 n)) ≡ true }
    ensures { out.new ≡ sets out.old 0 (book_of (listed pool.now rows.now order.now 0 n)) }
{
    put_number(out, 0, n);
    put_contents(out, pool, rows, order, n);
    put_bodies(out, pool, rows, order, n);
}
