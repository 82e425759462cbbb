// The entries at which fragments can give a fixup: the walk for fixup rows passes over those between them.
ghost use Rattle.std.specs.Prelude.{ℕ, ◌≤◌};
ghost use Rattle.fixups.specs.Next.{Nearer, NearerAt, Clear};

use cells::at;
use classes::gives_fixup;

// The nearer of an entry x and one found before, r; but x only if it is not below e.
fn nearer(x: u32, e: u32, r: u32) -> u32
    ensures { Nearer x e r result }
{
    if e <= x && x < r { x } else { r }
}

// The same with the entry of the i-th fragment, if its mode can give a fixup.
fn nearer_at(ms: &[u32], es: &[u32], i: usize, e: u32, r: u32) -> u32
    ensures { NearerAt ms.now es.now i e r result }
{
    if gives_fixup(at(ms, i)) {
        return nearer(at(es, i), e, r);
    }
    r
}

// An entry from e on, up to which none of the first c fragments gives a fixup at e or behind it.
pub(crate) fn next_at(ms: &[u32], es: &[u32], c: usize, e: u32) -> u32
    ensures { Clear ms.now es.now c e result }
{
    let mut r: u32 = 4294967295;
    for i in 0..c {
        r = nearer_at(ms, es, i, e, r);
    }
    r
}

// The same for the entry e, where that for an entry before it is x.
pub(crate) fn next_from(ms: &[u32], es: &[u32], c: usize, x: u32, e: u32) -> u32
    ensures { (d : ℕ) → d ≤ e → Clear ms.now es.now c d x → Clear ms.now es.now c e result }
{
    if e <= x {
        return x;
    }
    next_at(ms, es, c, e)
}
