// The rows of T and R records, one pair more at a time, and the room that they ask for.
#![tactic(auto)]

ghost use Rattle.std.specs.Prelude.{◌≡◌, [], ◌∷◌, ◌≤◌, ◌+◌, ◌*◌};
ghost use Rattle.std.proofs.lemmas.List.Edits.{sets};
ghost use Rattle.format.specs.Lists.{flat};
ghost use Rattle.sites.specs.Columns.{fragment_at, fragments_in};
ghost use Rattle.record_rows.specs.RecordRows.{fragment_numbers, pair_columns};
ghost use Rattle.pair_rows.specs.Rows.{Low, StoredOne, Stores, counted, held, is_low, line_numbers, room_for};

use cells::put_u32;
use rooms::PAIR_WIDTH;

// How many T and R pairs, content bytes and fragments there are.
#[derive(Clone, Copy)]
pub struct PairCounts {
    pub pairs: usize,
    pub content: usize,
    pub fragments: usize,
}

// A T and R pair: the T's place, its address and area, and how many content bytes and fragments it has.
#[derive(Clone, Copy)]
pub struct PairLine {
    pub place: usize,
    pub address: u32,
    pub area: u32,
    pub bytes: usize,
    pub fragments: usize,
}

// Three numbers from a place on.
fn put3(out: &mut [u32], i: usize, a: u32, b: u32, c: u32)
    requires { i ≤ 4294967296 }
    ensures { out.new ≡ sets out.old i (a ∷ b ∷ c ∷ []) }
{
    put_u32(out, i, a);
    put_u32(out, i + 1, b);
    put_u32(out, i + 2, c)
}

// Four numbers from a place on.
fn put4(out: &mut [u32], i: usize, a: u32, b: u32, c: u32, d: u32)
    requires { i ≤ 4294967296 }
    ensures { out.new ≡ sets out.old i (a ∷ b ∷ c ∷ d ∷ []) }
{
    put3(out, i, a, b, c);
    put_u32(out, i + 3, d)
}

// A pair's row, behind those before it.
fn put_pair(out: &mut [u32], n: PairCounts, l: PairLine)
    requires { Low n l }
    ensures { out.new ≡ sets out.old (pair_columns * n.pairs) (line_numbers n l) }
{
    let i = PAIR_WIDTH * n.pairs;
    put3(out, i, l.place as u32, l.address, l.area);
    put4(
        out,
        i + 3,
        n.content as u32,
        l.bytes as u32,
        n.fragments as u32,
        l.fragments as u32,
    )
}

// The row of the i-th fragment that three columns hold, at a place.
fn put_fragment(
    out: &mut [u32],
    at: usize,
    i: usize,
    ms: &[u32; 64],
    es: &[u32; 64],
    xs: &[u32; 64],
)
    requires { at ≤ 4294967296 }
    ensures { out.new ≡ sets out.old at (fragment_numbers (fragment_at ms.now es.now xs.now i)) }
{
    let m = cells::at(ms, i);
    let e = cells::at(es, i);
    let x = cells::at(xs, i);
    put3(out, at, m, e, x)
}

// The rows of the first n fragments that three columns hold, from a place on.
fn put_fragments(
    out: &mut [u32],
    at: usize,
    n: usize,
    ms: &[u32; 64],
    es: &[u32; 64],
    xs: &[u32; 64],
)
    requires { (at ≤ 12582912) × (n ≤ 64) }
    ensures { out.new ≡ sets out.old at (flat fragment_numbers (fragments_in ms.now es.now xs.now n)) }
{
    for i in 0..n {
        put_fragment(out, at + 3 * i, i, ms, es, xs);
    }
}

// How many there are with a pair more.
fn count(n: PairCounts, l: PairLine) -> PairCounts
    requires { Low n l }
    ensures { result ≡ counted n l }
{
    PairCounts {
        pairs: n.pairs + 1,
        content: n.content + l.bytes,
        fragments: n.fragments + l.fragments,
    }
}

// Whether so many and one pair more can be counted in 32 bits.
fn is_low(n: PairCounts, l: PairLine) -> bool
    ensures { result ≡ is_low n l }
{
    if 65536 < n.pairs {
        return false;
    }
    if 16777216 < n.content {
        return false;
    }
    if 4194304 < n.fragments {
        return false;
    }
    if 65536 < l.place {
        return false;
    }
    if 256 < l.bytes {
        return false;
    }
    l.fragments <= 64
}

// The row, the content bytes and the fragments' rows of a pair that can be counted.
fn store_low(
    l: PairLine,
    n: PairCounts,
    bytes: &[u8; 256],
    ms: &[u32; 64],
    es: &[u32; 64],
    xs: &[u32; 64],
    pairs: &mut [u32],
    content: &mut [u8],
    fragments: &mut [u32],
) -> PairCounts
    requires { Low n l }
    ensures { StoredOne l n bytes.now ms.now es.now xs.now (held pairs.old content.old fragments.old) result (held pairs.new content.new fragments.new) }
{
    put_pair(pairs, n, l);
    cells::copy_bytes(content, n.content, bytes, l.bytes);
    put_fragments(fragments, 3 * n.fragments, l.fragments, ms, es, xs);
    count(n, l)
}

// A pair behind so many others: its row, its content bytes and its fragments' rows, and how many there are then; nothing where they cannot be counted.
pub fn store(
    l: PairLine,
    n: PairCounts,
    bytes: &[u8; 256],
    ms: &[u32; 64],
    es: &[u32; 64],
    xs: &[u32; 64],
    pairs: &mut [u32],
    content: &mut [u8],
    fragments: &mut [u32],
) -> PairCounts
    ensures { Stores (is_low n l) l n bytes.now ms.now es.now xs.now (held pairs.old content.old fragments.old) result (held pairs.new content.new fragments.new) }
{
    if !is_low(n, l) {
        return n;
    }
    store_low(l, n, bytes, ms, es, xs, pairs, content, fragments)
}

// Whether buffers of these lengths have room for their bounds.
pub fn has_room(pairs: usize, content: usize, fragments: usize) -> bool
    ensures { result ≡ room_for pairs content fragments }
{
    if pairs < 28672 {
        return false;
    }
    if content < 32768 {
        return false;
    }
    24576 <= fragments
}
