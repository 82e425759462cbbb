// All pairs, one after the other.
ghost use Rattle.std.specs.Prelude.{◌≡◌, min, ◌≤◌};
ghost use Rattle.laid_rows.specs.Over.{around, rows_over};

use crate::pair::lay_pair;
use sites::Filled;

// The first n pairs, of at most 4,096.
pub fn lay_pairs(
    pairs: &[u32],
    content: &[u8],
    rows: &[u32],
    n: usize,
    big: bool,
    width: u32,
    areas: &[u32],
    symbols: &[u32],
    filled: Filled,
    chosen: &[u64],
    outside: &[u64],
    out: &mut [u8],
)
    ensures { out.new ≡ rows_over big width (around areas.now symbols.now filled chosen.now outside.now) pairs.now content.now rows.now 0 (min n 4096) out.old }
{
    for k in 0..n.min(4096) {
        lay_pair(
            pairs, content, rows, k, big, width, areas, symbols, filled, chosen, outside, out,
        );
    }
}
