// The numbers of entries in order of their names, put in one by one.
ghost use Rattle.std.specs.Prelude.{◌≡◌, ◌∷◌, ◌-◌, ◌≤◌, ◌<◌, leb, length, take, drop};
ghost use Rattle.std.proofs.lemmas.List.Edits.{sets};
ghost use Rattle.format.specs.Lists.{pick};
ghost use Rattle.book.specs.Given.{put_number, numbers_of};
ghost use Rattle.book_order.specs.Told.{Spot};

use book_given::given_name;
use book_rows::compare;
use cells::{at, put_u32, wide};

// The place of the k-th entry's number among the k before it, which stand in order.
fn find_spot(pool: &[u8], rows: &[u32], order: &[u32], k: u32) -> u32
    requires { k ≤ length order.now }
    ensures { Spot pool.now rows.now order.now k result }
{
    for i in 0..k {
        let j = at(order, wide(i));
        if compare(given_name(pool, rows, k), given_name(pool, rows, j)).is_le() {
            return i;
        }
    }
    k
}

// A number put in at a place, those from there up to the k-th moved up by one.
fn insert_at(order: &mut [u32], p: usize, k: usize, v: u32)
    requires { (p ≤ k) × (k < length order.old) }
    ensures { order.new ≡ sets order.old p (v ∷ take (k - p) (drop p order.old)) }
{
    let mut carry = v;
    for j in p..k {
        let next = at(order, j);
        put_u32(order, j, carry);
        carry = next;
    }
    put_u32(order, k, carry);
}

// The number of the k-th entry put in among those before it.
fn put_in(order: &mut [u32], pool: &[u8], rows: &[u32], k: u32)
    requires { k < length order.old }
    ensures { order.new ≡ sets order.old 0 (put_number pool.now rows.now k (take k order.old)) }
{
    let place = find_spot(pool, rows, order, k);
    insert_at(order, wide(place), wide(k), k);
}

// The numbers of n entries in order of names, into the first n places lent; nothing where there are fewer.
pub fn sort_numbers(order: &mut [u32], pool: &[u8], rows: &[u32], n: u32)
    ensures { order.new ≡ pick (leb n (length order.old)) (sets order.old 0 (numbers_of pool.now rows.now n)) order.old }
{
    if order.len() < wide(n) {
        return;
    }
    for k in 0..n {
        put_in(order, pool, rows, k);
    }
}
