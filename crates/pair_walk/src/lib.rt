// A walk over T and R pairs: where it is and how much is stored, and the pair that stands there stored with the place of its T.
#![tactic(auto)]

ghost use Rattle.pair_rows.specs.Rows.{held};
ghost use Rattle.pair_walk.specs.Walk.{WalksOn, line_of};

use pair_rows::{PairCounts, PairLine, store};

// The place where the walk is, and how much is stored.
#[derive(Clone, Copy)]
pub struct Walked {
    pub next: usize,
    pub counts: PairCounts,
}

// What was read of a pair: its address and area, and how many content bytes and fragments it has.
#[derive(Clone, Copy)]
pub struct Seen {
    pub address: u32,
    pub area: u32,
    pub bytes: usize,
    pub fragments: usize,
}

// The pair at the place where the walk is, stored behind those before it; the walk goes on at another place.
pub fn store_here(
    g: Walked,
    seen: Seen,
    next: usize,
    bs: &[u8; 256],
    ms: &[u32; 64],
    es: &[u32; 64],
    xs: &[u32; 64],
    pairs: &mut [u32],
    content: &mut [u8],
    fragments: &mut [u32],
) -> Walked
    ensures { WalksOn g next (line_of g.next seen) bs.now ms.now es.now xs.now (held pairs.old content.old fragments.old) result (held pairs.new content.new fragments.new) }
{
    let line = PairLine {
        place: g.next,
        address: seen.address,
        area: seen.area,
        bytes: seen.bytes,
        fragments: seen.fragments,
    };
    let n = store(line, g.counts, bs, ms, es, xs, pairs, content, fragments);
    Walked {
        next: next,
        counts: n,
    }
}
