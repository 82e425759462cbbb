// A book written. Every refusal is decided before anything lent is changed.
ghost use Rattle.std.specs.Prelude.{◌≡◌, true, map, ◌≤◌, length};
ghost use Rattle.std.proofs.lemmas.List.Edits.{sets};
ghost use Rattle.book.specs.Contents.{rows_for, small_rows, start};
ghost use Rattle.book.specs.Given.{entry_at, numbers_of};
ghost use Rattle.book.specs.Written.{book_of};
ghost use Rattle.book_told.specs.Told.{Written};

use crate::lay::put_book;
use book_order::sort_numbers;
use book_plan::Refusal;
use book_told::plan_lent;

// The numbers of n entries in order of names, and the book of the entries.
fn write_sorted(out: &mut [u8], order: &mut [u32], pool: &[u8], rows: &[u32], n: u32)
    requires { (n ≤ length order.old) × (small_rows (rows_for (start n) (map (entry_at pool.now rows.now) (numbers_of pool.now rows.now n))) ≡ true) }
    ensures order_after { order.new ≡ sets order.old 0 (numbers_of pool.now rows.now n) }
    ensures out_after { out.new ≡ sets out.old 0 (book_of (map (entry_at pool.now rows.now) (numbers_of pool.now rows.now n))) }
{
    sort_numbers(order, pool, rows, n);
    put_book(out, pool, rows, order, n);
}

// n entries given in any order as a book in the lent bytes, and their numbers in order of names in the lent numbers: 1, 21, 24.
pub fn write_book(
    out: &mut [u8],
    order: &mut [u32],
    pool: &[u8],
    rows: &[u32],
    n: u32,
) -> Result<usize, Refusal>
    ensures { Written pool.now rows.now n out.old order.old result out.new order.new }
{
    let length = plan_lent(pool, rows, n, order.len(), out.len())?;
    write_sorted(out, order, pool, rows, n);
    Ok(length)
}
