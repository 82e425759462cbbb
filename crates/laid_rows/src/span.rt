// Where the bytes and fragments of a pair stand in the rows, and where they go.
ghost use Rattle.std.specs.Prelude.{◌≡◌, ◌≤◌};
ghost use Rattle.laid_rows.specs.Over.{no_span, row_at, Spanned, SpannedBy};

use cells::{at, wide};
use homes::{Home, home_at};
use rooms::PAIR_WIDTH;

// The first content byte and the end, the first fragment and how many; the place in the images, and how many bytes have room there.
#[derive(Clone, Copy)]
pub(crate) struct Span {
    pub begin: usize,
    pub end: usize,
    pub first: usize,
    pub many: usize,
    pub at: usize,
    pub limit: usize,
}

// A pair's numbers: its address and area's index, the first content byte and how many, the first fragment and how many.
#[derive(Clone, Copy)]
struct Row {
    address: u32,
    area: u32,
    begin: u32,
    bytes: u32,
    first: u32,
    many: u32,
}

// No bytes.
fn no_span() -> Span
    ensures { result ≡ no_span }
{
    Span {
        begin: 0,
        end: 0,
        first: 0,
        many: 0,
        at: 0,
        limit: 0,
    }
}

// The numbers of the k-th pair's row.
fn row_at(pairs: &[u32], k: usize) -> Row
    requires { k ≤ 4096 }
    ensures { result ≡ row_at pairs.now k }
{
    let p = PAIR_WIDTH * k;
    Row {
        address: at(pairs, p + 1),
        area: at(pairs, p + 2),
        begin: at(pairs, p + 3),
        bytes: at(pairs, p + 4),
        first: at(pairs, p + 5),
        many: at(pairs, p + 6),
    }
}

// A row's bytes and fragments in the home of its area, with so many content bytes; none of an area that is not kept or ends before them, and none where the numbers do not fit.
fn span_by(row: Row, home: Home, room: usize) -> Span
    ensures { SpannedBy row home room result }
{
    if home.size <= row.address {
        return no_span();
    }
    if 65536 < home.start {
        return no_span();
    }
    if 256 < row.bytes {
        return no_span();
    }
    let end = wide(row.begin) + wide(row.bytes);
    if room < end {
        return no_span();
    }
    Span {
        begin: wide(row.begin),
        end: end,
        first: wide(row.first),
        many: wide(row.many),
        at: home.start + wide(row.address),
        limit: wide(home.size - row.address),
    }
}

// The k-th pair's.
pub(crate) fn span_of(areas: &[u32], na: usize, pairs: &[u32], room: usize, k: usize) -> Span
    requires { k ≤ 4096 }
    ensures { Spanned areas.now na pairs.now room k result }
{
    let row = row_at(pairs, k);
    let home = home_at(areas, na, wide(row.area));
    span_by(row, home, room)
}
