// Parts of lent bytes, and the order of names.
ghost use Rattle.std.specs.Prelude.{◌≡◌, min};
ghost use Rattle.book.specs.Contents.{part};
ghost use Rattle.book.specs.Names.{order};
ghost use Rattle.book_rows.specs.Told.{order_by};

use cells::wide;
use std::cmp::Ordering;

// A place, or the end where it lies behind that.
fn within(place: usize, end: usize) -> usize
    ensures { result ≡ min place end }
{
    if place <= end { place } else { end }
}

// So many bytes from a place on, cut at the end: a part of what is lent, not a copy.
pub fn part_of<'a>(bytes: &'a [u8], at: usize, n: u32) -> &'a [u8]
    ensures { result.now ≡ part bytes.now at n }
{
    let start = within(at, bytes.len());
    let long = within(wide(n), bytes.len() - start);
    let end = start + long;
    &bytes[start..end]
}

// Names mostly differ in their first bytes. Those are compared one by one, since std's `cmp` looks at groups of bytes first.
const HEAD: usize = 16;

// Two names compared byte by byte: how the first stands to the second; a name stands before every longer one that begins with it.
pub fn compare(a: &[u8], b: &[u8]) -> Ordering
    ensures { order a.now b.now ≡ order_by result }
{
    for i in 0..a.len().min(HEAD) {
        if b.len() <= i {
            return Ordering::Greater;
        }
        let x = a[i];
        let y = b[i];
        if x < y {
            return Ordering::Less;
        }
        if y < x {
            return Ordering::Greater;
        }
    }
    a.cmp(b)
}
