// Fragments and R lines written into a lent text.
#![tactic(auto)]

ghost use Rattle.std.specs.Prelude.{◌≡◌, [], ◌∷◌, ◌%◌, ◌<◌, ◌≤◌};
ghost use Rattle.manual.specs.WrittenPairs.{shortest};
ghost use Rattle.written.specs.Shapes.{hex_bytes};
ghost use Rattle.digits_out.specs.Wrote.{Wrote};
ghost use Rattle.relocation_out.specs.RelocationOut.{part_bytes, parts_of, relocation_out, row_at};

use content_out::{put_bytes, put_two};
use digits_out::put;

// The first mode that has two bytes.
const FIRST_LONG: u32 = 240;

// A mode of 11 bits: one byte below F0, else two.
fn put_mode(out: &mut [u8], at: usize, m: u32) -> usize
    ensures { Wrote (hex_bytes (shortest (m % 2048))) out.old at result out.new }
{
    let k = m % 2048;
    if k < FIRST_LONG {
        return put_bytes(out, at, &[k as u8]);
    }
    put_bytes(out, at, &[(240 + k / 256) as u8, (k % 256) as u8])
}

// A fragment.
fn put_part(out: &mut [u8], at: usize, big: bool, mode: u32, entry: u32, index: u32) -> usize
    ensures { Wrote (hex_bytes (part_bytes big (record { mode = mode; entry = entry; index = index }))) out.old at result out.new }
{
    let p = put_mode(out, at, mode);
    let q = put_bytes(out, p, &[(entry % 256) as u8]);
    put_two(out, q, big, index)
}

// The fragment of the i-th row.
fn put_row(out: &mut [u8], at: usize, big: bool, rows: &[u32], i: usize) -> usize
    requires { i ≤ 8589934592 }
    ensures { Wrote (hex_bytes (part_bytes big (row_at rows.now i))) out.old at result out.new }
{
    let j = 3 * i;
    let mode = cells::at(rows, j);
    let entry = cells::at(rows, j + 1);
    let index = cells::at(rows, j + 2);
    put_part(out, at, big, mode, entry, index)
}

// So many fragments, from a row on.
fn put_parts(out: &mut [u8], at: usize, big: bool, rows: &[u32], first: u32, n: u32) -> usize
    ensures { Wrote (hex_bytes (parts_of big rows.now first n)) out.old at result out.new }
{
    let f = first as usize;
    let k = n as usize;
    let mut p = at;
    for i in 0..k {
        p = put_row(out, p, big, rows, f + i);
    }
    p
}

// R, index 0, the area's index, so many fragments from a row on, and LF.
pub fn put_relocation(
    out: &mut [u8],
    at: usize,
    big: bool,
    area: u32,
    rows: &[u32],
    first: u32,
    n: u32,
) -> usize
    ensures { Wrote (relocation_out big area rows.now first n) out.old at result out.new }
{
    let p = digits_out::put_word(out, at, b"R 00 00");
    let q = put_two(out, p, big, area);
    let r = put_parts(out, q, big, rows, first, n);
    put(out, r, b'\n')
}
