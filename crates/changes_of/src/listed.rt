// The list: counted first, and written only if it fits.
ghost use Rattle.std.specs.Prelude.{◌≡◌};
ghost use Rattle.answer.specs.Answer.{held, told_counts};
ghost use Rattle.read_rows.specs.Rows.{module_held};
ghost use Rattle.difference.specs.Changes.{changes};
ghost use Rattle.difference.specs.Told.{listed};
ghost use Rattle.change_rows.specs.Walk.{Walked};
ghost use Rattle.change_answer.specs.Answer.{Lists};
ghost use Rattle.changes_of.specs.Answer.{IfFit};

use answer::Counts;
use area_changes::areas;
use change_answer::{Refused, Told, Whose, has_room};
use change_rows::Side;
use next_areas::stretch;
use symbol_changes::symbols;

// All changes, counted or written: the older has the text s, areas p, symbols f, values v, masks k and fixups xs; the newer t, q, g, w, l and ys.
fn walk(
    s: &[u8],
    p: &[u32],
    f: &[u32],
    v: &[u8],
    k: &[u8],
    xs: &[u32],
    one: Counts,
    t: &[u8],
    q: &[u32],
    g: &[u32],
    w: &[u8],
    l: &[u8],
    ys: &[u32],
    two: Counts,
    list: &mut [u32],
    writing: bool,
) -> usize
    ensures { IfFit (told_counts one) (held p.now f.now v.now k.now xs.now) (told_counts two) (held q.now g.now w.now l.now ys.now) (Walked writing list.old 0 (changes (module_held s.now (told_counts one) (held p.now f.now v.now k.now xs.now)) (module_held t.now (told_counts two) (held q.now g.now w.now l.now ys.now))) 8652800 result list.new) }
{
    let older = Side {
        text: s,
        areas: p,
        area_count: one.areas,
        symbols: f,
        symbol_count: one.symbols,
        values: stretch(v, 0, one.positions),
        masks: stretch(k, 0, one.positions),
        fixups: xs,
        fixup_count: one.fixups,
    };
    let newer = Side {
        text: t,
        areas: q,
        area_count: two.areas,
        symbols: g,
        symbol_count: two.symbols,
        values: stretch(w, 0, two.positions),
        masks: stretch(l, 0, two.positions),
        fixups: ys,
        fixup_count: two.fixups,
    };
    let count = areas(&older, &newer, list, writing);
    symbols(&older, &newer, list, count, writing)
}

// Counts, and then writes if the list has room: 16 if it has not.
pub(crate) fn fill(
    s: &[u8],
    p: &[u32],
    f: &[u32],
    v: &[u8],
    k: &[u8],
    xs: &[u32],
    one: Counts,
    t: &[u8],
    q: &[u32],
    g: &[u32],
    w: &[u8],
    l: &[u8],
    ys: &[u32],
    two: Counts,
    list: &mut [u32],
) -> Told
    ensures { IfFit (told_counts one) (held p.now f.now v.now k.now xs.now) (told_counts two) (held q.now g.now w.now l.now ys.now) (Lists (listed list.old (changes (module_held s.now (told_counts one) (held p.now f.now v.now k.now xs.now)) (module_held t.now (told_counts two) (held q.now g.now w.now l.now ys.now)))) result list.new) }
{
    let total = walk(s, p, f, v, k, xs, one, t, q, g, w, l, ys, two, list, false);
    if has_room(list.len(), total) {
        let count = walk(s, p, f, v, k, xs, one, t, q, g, w, l, ys, two, list, true);
        return Ok(count);
    }
    Err(Refused {
        whose: Whose::Both,
        number: 16,
        place: 0,
    })
}
