// What the rows of T and R records say: a pair's numbers, and its fragments as three columns, which is how placing takes them.
#![tactic(auto)]

ghost use Rattle.std.specs.Prelude.{◌≡◌, min, ◌≤◌, ◌<◌, ◌+◌, length};
ghost use Rattle.std.proofs.lemmas.List.Edits.{sets};
ghost use Rattle.record_parts.specs.Columns.{line_from, column, Three, ThreeAt};

use cells::{at, put_u32, wide};
use sites::Line;

// The pair whose row begins at a place, under a header's order and address length.
pub fn line_at(pairs: &[u32], p: usize, big: bool, width: usize) -> Line
    ensures { result ≡ line_from pairs.now p big width }
{
    if pairs.len() <= p {
        return Line {
            big: big,
            width: width,
            place: 0,
            address: 0,
            bytes: 0,
            fragments: 0,
            area: 0,
        };
    }
    Line {
        big: big,
        width: width,
        place: wide(at(pairs, p)),
        address: at(pairs, p + 1),
        bytes: wide(at(pairs, p + 4)),
        fragments: wide(at(pairs, p + 6)),
        area: wide(at(pairs, p + 2)),
    }
}

// Mode, entry and index of the row at a place, as the i-th of three columns.
fn put_row(rows: &[u32], p: usize, i: usize, ms: &mut [u32], es: &mut [u32], xs: &mut [u32])
    requires { p ≤ length rows.now + 192 }
    ensures { ThreeAt rows.now p i ms.old es.old xs.old ms.new es.new xs.new }
{
    put_u32(ms, i, at(rows, p));
    put_u32(es, i, at(rows, p + 1));
    put_u32(xs, i, at(rows, p + 2));
}

// The first n fragments, of at most 64, whose rows begin at a place.
pub fn columns_at(
    rows: &[u32],
    p: usize,
    n: usize,
    ms: &mut [u32; 64],
    es: &mut [u32; 64],
    xs: &mut [u32; 64],
)
    ensures { Three rows.now p (min n 64) ms.old es.old xs.old ms.new es.new xs.new }
{
    let k = n.min(64);
    let mut q = p.min(rows.len());
    for i in 0..k {
        put_row(rows, q, i, ms, es, xs);
        q += 3;
    }
}
