// An entry given: its row and its body laid into the book.
ghost use Rattle.std.specs.Prelude.{◌≡◌, ◌+◌, ◌^◌, ◌<◌, length};
ghost use Rattle.std.proofs.lemmas.List.Edits.{sets};
ghost use Rattle.book.specs.Contents.{four, part, row_bytes, row_for};
ghost use Rattle.book.specs.Entries.{body};
ghost use Rattle.book.specs.Given.{entry_at};

use book_given::given_cell;
use book_plan::{length_in, name_size, values_size};
use book_rows::part_of;
use cells::{copy_bytes, wide};

// A part of the pool, laid at a place.
fn put_part(out: &mut [u8], to: usize, pool: &[u8], from: u32, n: u32)
    ensures { out.new ≡ sets out.old to (part pool.now from n) }
{
    copy_bytes(out, to, part_of(pool, wide(from), n), wide(n));
}

// The body of the i-th entry, laid at a place: name, values, masks.
pub(crate) fn put_body(out: &mut [u8], to: usize, pool: &[u8], rows: &[u32], i: u32)
    requires { to < 2 ^ 40 }
    ensures { out.new ≡ sets out.old to (body (entry_at pool.now rows.now i)) }
{
    let name = given_cell(rows, i, 0);
    let long = given_cell(rows, i, 1);
    let values = given_cell(rows, i, 2);
    let masks = given_cell(rows, i, 3);
    let size = given_cell(rows, i, 4);
    put_part(out, to, pool, name, long);
    let behind = to + wide(length_in(pool, name, long));
    put_part(out, behind, pool, values, size);
    let last = behind + wide(length_in(pool, values, size));
    put_part(out, last, pool, masks, size);
}

// A number as four bytes, the lowest first.
pub(crate) fn put_number(out: &mut [u8], to: usize, v: u32)
    ensures { out.new ≡ sets out.old to (four v) }
{
    let bytes = [
        (v % 256) as u8,
        (v / 256 % 256) as u8,
        (v / 256 / 256 % 256) as u8,
        (v / 256 / 256 / 256 % 256) as u8,
    ];
    copy_bytes(out, to, &bytes, 4);
}

// A row of the contents.
fn put_row(out: &mut [u8], to: usize, a: u32, b: u32, c: u32, d: u32)
    requires { to < 2 ^ 40 }
    ensures { out.new ≡ sets out.old to (row_bytes (record { name_at = a; name_length = b; at = c; size = d })) }
{
    put_number(out, to, a);
    put_number(out, to + 4, b);
    put_number(out, to + 8, c);
    put_number(out, to + 12, d);
}

// The row of the i-th entry, whose body begins at a place.
pub(crate) fn put_entry(out: &mut [u8], row: usize, pool: &[u8], rows: &[u32], i: u32, to: usize)
    requires { (row < 2 ^ 40) × (to + length (entry_at pool.now rows.now i).name < 2 ^ 32) }
    ensures { out.new ≡ sets out.old row (row_bytes (row_for to (entry_at pool.now rows.now i))) }
{
    let long = name_size(pool, rows, i);
    let size = values_size(pool, rows, i);
    let start = to as u32;
    put_row(out, row, start, long, start + long, size);
}
