// The walk over group two: its T and R pairs stored one behind the other.
ghost use Rattle.std.specs.Prelude.{◌≤◌, ◌≡◌, true, length};
ghost use Rattle.header.specs.Told.{form_of};
ghost use Rattle.laws.specs.Places.{pairs_at};
ghost use Rattle.reading_lines.specs.Onward.{Columns};
ghost use Rattle.pair_rows.specs.Rows.{held};
ghost use Rattle.records.specs.Storing.{Stored};
ghost use Rattle.pair_walk.specs.Walk.{walked_to};
ghost use Rattle.records.specs.Walking.{Fitting, Ready, TurnIs};
ghost use Rattle.records.specs.declared.walk.Turn.TheVariants.{Goes};

use header::Form;
use pair_rows::PairCounts;
use pair_walk::{Seen, Walked, store_here};
use steps::{Body, PairStep, pair_step};

// The walk goes on, or is over.
#[derive(Clone, Copy)]
enum Turn {
    Goes { walked: Walked },
    Done,
}

// The walk goes on at a place.
fn walked_to(next: usize, counts: PairCounts) -> Turn
    ensures { result ≡ Goes (walked_to next counts) }
{
    let walked = Walked {
        next: next,
        counts: counts,
    };
    Turn::Goes { walked: walked }
}

// One turn: the pair at the place where group two is. What was lent for its bytes and fragments may hold those of the pair before.
fn take_pair(
    t: &[u8],
    g: Walked,
    form: Form,
    bs: &mut [u8; 256],
    ms: &mut [u32; 64],
    es: &mut [u32; 64],
    xs: &mut [u32; 64],
    pairs: &mut [u32],
    content: &mut [u8],
    fragments: &mut [u32],
) -> Turn
    requires { (Ready (form_of form) t.now g) × (length t.now ≤ 65536) × (Columns bs.old ms.old es.old xs.old) }
    ensures { (TurnIs (form_of form) t.now g (held pairs.old content.old fragments.old) result (held pairs.new content.new fragments.new)) × (Columns bs.new ms.new es.new xs.new) }
{
    let step = pair_step(t, g.next, form, true, bs, ms, es, xs);
    let PairStep::Takes {
        body,
        end: _,
        next,
        on: _,
    } = step
    else {
        return Turn::Done;
    };
    let Body::Placed {
        address,
        count,
        area,
        fragments: few,
    } = body
    else {
        return walked_to(next, g.counts);
    };
    let seen = Seen {
        address: address,
        area: area,
        bytes: count,
        fragments: few,
    };
    let walked = store_here(g, seen, next, bs, ms, es, xs, pairs, content, fragments);
    Turn::Goes { walked: walked }
}

// Turn after turn from a place on.
fn rounds(
    t: &[u8],
    start: Walked,
    form: Form,
    bs: &mut [u8; 256],
    ms: &mut [u32; 64],
    es: &mut [u32; 64],
    xs: &mut [u32; 64],
    pairs: &mut [u32],
    content: &mut [u8],
    fragments: &mut [u32],
) -> PairCounts
    requires { (Ready (form_of form) t.now start) × (length t.now ≤ 65536) × (Columns bs.old ms.old es.old xs.old) × (start ≡ walked_to start.next (record { pairs = 0; content = 0; fragments = 0 })) }
    ensures { Stored (pairs_at true (form_of form) t.now start.next) (held pairs.old content.old fragments.old) result (held pairs.new content.new fragments.new) }
{
    let mut g = start;
    loop {
        let u = take_pair(t, g, form, bs, ms, es, xs, pairs, content, fragments);
        let Turn::Goes { walked } = u else {
            return g.counts;
        };
        g = walked;
    }
}

// All pairs from a place on. The arrays for a pair's bytes and fragments are made once for all pairs.
pub(crate) fn store_all(
    t: &[u8],
    p: usize,
    form: Form,
    pairs: &mut [u32],
    content: &mut [u8],
    fragments: &mut [u32],
) -> PairCounts
    requires { (p ≤ length t.now) × (length t.now ≤ 65536) × (Fitting (pairs_at true (form_of form) t.now p)) }
    ensures { Stored (pairs_at true (form_of form) t.now p) (held pairs.old content.old fragments.old) result (held pairs.new content.new fragments.new) }
{
    let mut bs = [0u8; 256];
    let mut ms = [0u32; 64];
    let mut es = [0u32; 64];
    let mut xs = [0u32; 64];
    let none = PairCounts {
        pairs: 0,
        content: 0,
        fragments: 0,
    };
    let start = Walked {
        next: p,
        counts: none,
    };
    rounds(
        t, start, form, &mut bs, &mut ms, &mut es, &mut xs, pairs, content, fragments,
    )
}
