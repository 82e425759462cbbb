// Names that stand twice, found without putting anything in order.
ghost use Rattle.std.specs.Prelude.{◌≡◌};
ghost use Rattle.book.specs.Entries.{in_order_of};
ghost use Rattle.book.specs.Given.{given, seen};
ghost use Rattle.book.specs.Steps.{silent};
ghost use Rattle.book_given.specs.Told.{twice_of};

use crate::given::given_name;
use book_rows::compare;

// Whether an entry before the k-th has its name.
fn seen_before(pool: &[u8], rows: &[u32], k: u32) -> bool
    ensures { result ≡ seen pool.now rows.now k k }
{
    for i in 0..k {
        if compare(given_name(pool, rows, k), given_name(pool, rows, i)).is_eq() {
            return true;
        }
    }
    false
}

// The first of n entries whose name an earlier one has.
pub fn first_twice(pool: &[u8], rows: &[u32], n: u32) -> Option<u32>
    ensures { silent (in_order_of (given pool.now rows.now 0 n)) ≡ twice_of result }
{
    for k in 0..n {
        if seen_before(pool, rows, k) {
            return Some(k);
        }
    }
    None
}
