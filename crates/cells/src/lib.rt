// Lent bytes and numbers, read and written at any place: past the end a read gives 0 and a store changes nothing.
#![tactic(auto)]

ghost use Rattle.std.specs.Prelude.{◌≡◌, take, replicate, get_or, set};
ghost use Rattle.std.proofs.lemmas.List.Edits.{sets};
ghost use Rattle.cells.specs.Room.{Room};

// An element, or what stands for one past the end.
fn at_or<T: Copy>(xs: &[T], i: usize, past: T) -> T
    ensures { result ≡ get_or xs.now i past }
{
    xs.get(i).copied().unwrap_or(past)
}

// A number, or 0 past the end.
pub fn at(rows: &[u32], i: usize) -> u32
    ensures { result ≡ get_or rows.now i 0 }
{
    at_or(rows, i, 0)
}

// A byte, or 0 past the end.
pub fn byte_at(bytes: &[u8], i: usize) -> u8
    ensures { result ≡ get_or bytes.now i 0 }
{
    at_or(bytes, i, 0)
}

// A number as a count or a place.
pub fn wide(x: u32) -> usize
    ensures { result ≡ x }
{
    x as usize
}

// An element stored.
fn store<T: Copy>(xs: &mut [T], i: usize, v: T)
    ensures { xs.new ≡ set xs.old i v }
{
    if i < xs.len() {
        xs[i] = v;
    }
}

// A byte stored.
pub fn put(bytes: &mut [u8], i: usize, v: u8)
    ensures { bytes.new ≡ set bytes.old i v }
{
    store(bytes, i, v)
}

// A number stored.
pub fn put_u32(rows: &mut [u32], i: usize, v: u32)
    ensures { rows.new ≡ set rows.old i v }
{
    store(rows, i, v)
}

// How many of n elements there is room for from a place on, in a list of this length.
fn room(length: usize, at: usize, n: usize) -> usize
    ensures { Room length at n result }
{
    length.saturating_sub(at).min(n)
}

// The first n elements of src over dst, from a place on.
fn copy<T: Copy>(dst: &mut [T], at: usize, src: &[T], n: usize)
    ensures { dst.new ≡ sets dst.old at (take n src.now) }
{
    let k = room(src.len(), 0, room(dst.len(), at, n));
    if 0 < k {
        dst[at..at + k].copy_from_slice(&src[..k]);
    }
}

// The first n bytes of src over dst, from a place on. A loop, since `copy_from_slice` asks which of the two stands first in memory:
// a few bytes are then stored by a call, and what nobody reads is cleared and written all the same.
pub fn copy_bytes(dst: &mut [u8], at: usize, src: &[u8], n: usize)
    ensures { dst.new ≡ sets dst.old at (take n src.now) }
{
    let k = room(src.len(), 0, room(dst.len(), at, n));
    for i in 0..k {
        dst[at + i] = src[i];
    }
}

// The first n numbers of src over dst, from a place on.
pub fn copy_u32s(dst: &mut [u32], at: usize, src: &[u32], n: usize)
    ensures { dst.new ≡ sets dst.old at (take n src.now) }
{
    copy(dst, at, src, n)
}

// A byte stored n times, from a place on.
pub fn fill_bytes(dst: &mut [u8], at: usize, n: usize, v: u8)
    ensures { dst.new ≡ sets dst.old at (replicate n v) }
{
    let k = room(dst.len(), at, n);
    if 0 < k {
        dst[at..at + k].fill(v);
    }
}
