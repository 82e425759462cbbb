// Where entries wait to be packed: a pool of bytes and rows of five numbers about it.

// How many bytes the names, values and masks of all entries may have.
pub const POOL: usize = 2097152;

// How many numbers the rows of all entries have.
pub const ROWS: usize = 81920;

// Lent bytes and lent numbers of these lengths.
pub type Pool = [u8; POOL];

pub type Rows = [u32; ROWS];

// How many bytes and entries wait, whether one found no room, whether a module was not taken, and whether fixups are
// listed instead.
#[derive(Clone, Copy)]
pub struct Shelf {
    pub used: usize,
    pub entries: u32,
    pub full: bool,
    pub bad: bool,
    pub listing: bool,
}

// Bytes and numbers that are all zero: made by themselves, so that no proof has so many of them in sight.
pub(crate) fn empty_pool() -> Pool {
    [0; POOL]
}

pub(crate) fn empty_rows() -> Rows {
    [0; ROWS]
}

// Nothing waits yet.
pub(crate) fn new(listing: bool) -> Shelf {
    Shelf {
        used: 0,
        entries: 0,
        full: false,
        bad: false,
        listing,
    }
}

// A module was not taken.
pub(crate) fn spoilt(s: Shelf) -> Shelf {
    Shelf { bad: true, ..s }
}

// An entry found no room, or standard output took no more.
pub(crate) fn over(s: Shelf) -> Shelf {
    Shelf { full: true, ..s }
}

// Bytes added to the pool.
fn append(pool: &mut [u8], s: Shelf, bytes: &[u8]) -> Shelf {
    let used = s.used;
    let n = bytes.len();
    if pool.len() < used {
        return over(s);
    }
    if pool.len() - used < n {
        return over(s);
    }
    cells::copy_bytes(pool, used, bytes, n);
    Shelf {
        used: used + n,
        ..s
    }
}

// The last digit of a number.
fn digit(n: usize) -> u8 {
    b'0' + (n % 10) as u8
}

// A colon and a number below 1,000 in decimal, added to the pool.
fn append_id(pool: &mut [u8], s: Shelf, id: usize) -> Shelf {
    if id < 10 {
        return append(pool, s, &[b':', digit(id)]);
    }
    if id < 100 {
        return append(pool, s, &[b':', digit(id / 10), digit(id)]);
    }
    append(pool, s, &[b':', digit(id / 100), digit(id / 10), digit(id)])
}

// A place or length as a number of a row.
fn narrow(n: usize) -> u32 {
    u32::try_from(n).unwrap_or(u32::MAX)
}

// How many bytes were added between two moments.
fn added(from: usize, to: usize) -> u32 {
    if from <= to {
        return narrow(to - from);
    }
    0
}

// The row of an entry: where its name, its values and its masks begin, and where they end.
fn put_row(rows: &mut [u32], s: Shelf, name: usize, values: usize, masks: usize) -> Shelf {
    let at = 5 * cells::wide(s.entries);
    if rows.len() < at {
        return over(s);
    }
    if rows.len() - at < 5 {
        return over(s);
    }
    cells::put_u32(rows, at, narrow(name));
    cells::put_u32(rows, at + 1, added(name, values));
    cells::put_u32(rows, at + 2, narrow(values));
    cells::put_u32(rows, at + 3, narrow(masks));
    cells::put_u32(rows, at + 4, added(values, masks));
    Shelf {
        entries: std::num::wrapping_add_u32(s.entries, 1),
        ..s
    }
}

// An entry added: NAME:ID, its values and its masks.
pub(crate) fn add(
    pool: &mut [u8],
    rows: &mut [u32],
    s: Shelf,
    name: &[u8],
    id: usize,
    values: &[u8],
    masks: &[u8],
) -> Shelf {
    let s1 = append(pool, s, name);
    let s2 = append_id(pool, s1, id);
    let s3 = append(pool, s2, values);
    let s4 = append(pool, s3, masks);
    put_row(rows, s4, s.used, s2.used, s3.used)
}
