// One pair: its content with each fragment's bytes replaced, laid as far as it lies in its area.
ghost use Rattle.std.specs.Prelude.{◌≡◌, ◌≤◌, length, take};
ghost use Rattle.std.proofs.lemmas.List.Edits.{sets};
ghost use Rattle.laws.specs.Rows.{from};
ghost use Rattle.record_parts.specs.Parts.{fragment_from};
ghost use Rattle.laid_rows.specs.Over.{around, row_over, PartIs, PartLaid};

use crate::fragments::lay_fragments;
use crate::span::span_of;
use cells::copy_bytes;
use sites::Filled;

// A pair's bytes with its fragments laid over them, at the start of what is lent, which may hold anything.
fn lay_content(
    part: &mut [u8; 256],
    bs: &[u8],
    rows: &[u32],
    first: usize,
    n: usize,
    big: bool,
    width: u32,
    areas: &[u32],
    symbols: &[u32],
    filled: Filled,
    chosen: &[u64],
    outside: &[u64],
)
    requires { (first ≤ 4294967296) × (n ≤ 4294967296) × (length part.old ≡ 256) }
    ensures { PartIs big width (around areas.now symbols.now filled chosen.now outside.now) bs.now (from (fragment_from rows.now) first n) part.new }
{
    copy_bytes(part, 0, bs, bs.len());
    lay_fragments(
        part, bs, rows, first, n, big, width, areas, symbols, filled, chosen, outside,
    )
}

// The first n bytes of an array laid from a place on.
fn lay_out(out: &mut [u8], place: usize, part: &[u8; 256], n: usize)
    ensures { out.new ≡ sets out.old place (take n part.now) }
{
    copy_bytes(out, place, part, n)
}

// A pair's bytes from a place on, as far as a limit.
fn lay_part(
    out: &mut [u8],
    place: usize,
    limit: usize,
    bs: &[u8],
    rows: &[u32],
    first: usize,
    n: usize,
    big: bool,
    width: u32,
    areas: &[u32],
    symbols: &[u32],
    filled: Filled,
    chosen: &[u64],
    outside: &[u64],
)
    requires { (first ≤ 4294967296) × (n ≤ 4294967296) }
    ensures { PartLaid big width (around areas.now symbols.now filled chosen.now outside.now) bs.now (from (fragment_from rows.now) first n) place limit out.old out.new }
{
    let mut part = [0u8; 256];
    lay_content(
        &mut part, bs, rows, first, n, big, width, areas, symbols, filled, chosen, outside,
    );
    lay_out(out, place, &part, bs.len().min(limit))
}

// The k-th pair. One of an area that is not kept lays nothing.
pub(crate) fn lay_pair(
    pairs: &[u32],
    content: &[u8],
    rows: &[u32],
    k: usize,
    big: bool,
    width: u32,
    areas: &[u32],
    symbols: &[u32],
    filled: Filled,
    chosen: &[u64],
    outside: &[u64],
    out: &mut [u8],
)
    requires { k ≤ 4096 }
    ensures { out.new ≡ row_over big width (around areas.now symbols.now filled chosen.now outside.now) pairs.now content.now rows.now k out.old }
{
    let s = span_of(areas, filled.areas, pairs, content.len(), k);
    let begin = s.begin;
    let end = s.end;
    lay_part(
        out,
        s.at,
        s.limit,
        &content[begin..end],
        rows,
        s.first,
        s.many,
        big,
        width,
        areas,
        symbols,
        filled,
        chosen,
        outside,
    )
}
