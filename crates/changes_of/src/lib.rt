// What changed between two texts: rows of eight numbers in a lent list, or a refusal that leaves the list unchanged.
#![tactic(auto)]

ghost use Rattle.answer.specs.Answer.{held, told};
ghost use Rattle.changes_of.specs.Answer.{Changed, Compares, NewerRead};

use answer::Answer;
use change_answer::Told;
use reading::read_ended;
use rooms::{AREA_ROOM, FIXUP_ROOM, IMAGE_ROOM, SYMBOL_ROOM};

mod listed;
mod refusals;

// Reads the newer text into five lent buffers, and lists what changed since the older, which is read.
fn read_newer(
    older: &[u8],
    p: &[u32],
    f: &[u32],
    v: &[u8],
    k: &[u8],
    xs: &[u32],
    first: Answer,
    newer: &[u8],
    q: &mut [u32],
    g: &mut [u32],
    w: &mut [u8],
    l: &mut [u8],
    ys: &mut [u32],
    list: &mut [u32],
) -> Told
    ensures { NewerRead older.now (told first) (held p.now f.now v.now k.now xs.now) newer.now (held q.old g.old w.old l.old ys.old) list.old result (held q.new g.new w.new l.new ys.new) list.new }
{
    let second = read_ended(newer, q, g, w, l, ys);
    refusals::answered(
        older, p, f, v, k, xs, first, newer, q, g, w, l, ys, second, list,
    )
}

// Reads both texts, each into five lent buffers, and lists what changed: the older's areas p, symbols f, values v, masks k and fixups xs, the newer's q, g, w, l and ys.
fn compare_in(
    older: &[u8],
    p: &mut [u32],
    f: &mut [u32],
    v: &mut [u8],
    k: &mut [u8],
    xs: &mut [u32],
    newer: &[u8],
    q: &mut [u32],
    g: &mut [u32],
    w: &mut [u8],
    l: &mut [u8],
    ys: &mut [u32],
    list: &mut [u32],
) -> Told
    ensures { Compares older.now newer.now (held p.old f.old v.old k.old xs.old) (held q.old g.old w.old l.old ys.old) list.old result (held p.new f.new v.new k.new xs.new) (held q.new g.new w.new l.new ys.new) list.new }
{
    let first = read_ended(older, p, f, v, k, xs);
    read_newer(older, p, f, v, k, xs, first, newer, q, g, w, l, ys, list)
}

// What changed between two texts, in a lent list: the refusals of the older text, then of the newer, then 19 if one is not finished, then 16 if the list has too little room; or how many rows there are.
// The texts are read into arrays of its own, so that a refusal leaves nothing changed.
pub fn changes_of(older: &[u8], newer: &[u8], list: &mut [u32]) -> Told
    ensures { Changed older.now newer.now list.old result list.new }
{
    let mut p = [0u32; AREA_ROOM];
    let mut f = [0u32; SYMBOL_ROOM];
    let mut v = [0u8; IMAGE_ROOM];
    let mut k = [0u8; IMAGE_ROOM];
    let mut xs = [0u32; FIXUP_ROOM];
    let mut q = [0u32; AREA_ROOM];
    let mut g = [0u32; SYMBOL_ROOM];
    let mut w = [0u8; IMAGE_ROOM];
    let mut l = [0u8; IMAGE_ROOM];
    let mut ys = [0u32; FIXUP_ROOM];
    compare_in(
        older, &mut p, &mut f, &mut v, &mut k, &mut xs, newer, &mut q, &mut g, &mut w, &mut l,
        &mut ys, list,
    )
}
