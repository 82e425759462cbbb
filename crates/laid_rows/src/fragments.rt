// The fragments of a pair laid over its content.
ghost use Rattle.std.specs.Prelude.{◌≡◌, ◌≤◌};
ghost use Rattle.std.proofs.lemmas.List.Edits.{sets};
ghost use Rattle.laws.specs.Rows.{from};
ghost use Rattle.record_parts.specs.Parts.{fragment_from};
ghost use Rattle.laid_rows.specs.Over.{around, laid_over};

use cells::at;
use laid_field::lay_field;
use referred_address::address_to;
use sites::Filled;

// The fragment of a row.
fn lay_fragment(
    part: &mut [u8],
    bs: &[u8],
    rows: &[u32],
    i: usize,
    big: bool,
    width: u32,
    areas: &[u32],
    symbols: &[u32],
    filled: Filled,
    chosen: &[u64],
    outside: &[u64],
)
    requires { i ≤ 8589934592 }
    ensures { part.new ≡ laid_over big width (around areas.now symbols.now filled chosen.now outside.now) bs.now (from (fragment_from rows.now) i 1) part.old }
{
    let mode = at(rows, 3 * i);
    let entry = at(rows, 3 * i + 1);
    let index = at(rows, 3 * i + 2);
    let to = address_to(mode, entry, index, areas, symbols, filled, chosen, outside);
    let site = entry.saturating_sub(width);
    lay_field(part, bs, mode, site, big, to)
}

// The fragments of n rows from the first on.
pub(crate) fn lay_fragments(
    part: &mut [u8],
    bs: &[u8],
    rows: &[u32],
    first: usize,
    n: usize,
    big: bool,
    width: u32,
    areas: &[u32],
    symbols: &[u32],
    filled: Filled,
    chosen: &[u64],
    outside: &[u64],
)
    requires { (first ≤ 4294967296) × (n ≤ 4294967296) }
    ensures { part.new ≡ laid_over big width (around areas.now symbols.now filled chosen.now outside.now) bs.now (from (fragment_from rows.now) first n) part.old }
{
    for i in 0..n {
        lay_fragment(
            part,
            bs,
            rows,
            first + i,
            big,
            width,
            areas,
            symbols,
            filled,
            chosen,
            outside,
        );
    }
}
