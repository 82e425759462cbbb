// Both answers: the refusals in their order, and then the list.
ghost use Rattle.answer.specs.Answer.{held, told, told_counts, told_verdict};
ghost use Rattle.change_answer.specs.Answer.{Lists};
ghost use Rattle.changes_of.specs.Answer.{IfBoth, IfFit, both_of, finished_of};

use crate::listed::fill;
use answer::{Answer, Counts, Verdict};
use change_answer::{Refused, Told, Whose};

// The refusal of two texts of which one is not finished.
const UNFINISHED: Refused = Refused {
    whose: Whose::Both,
    number: 19,
    place: 0,
};

// Two texts that are read: 19 if either is not finished.
fn finished(
    s: &[u8],
    p: &[u32],
    f: &[u32],
    v: &[u8],
    k: &[u8],
    xs: &[u32],
    one: Counts,
    verdict: Verdict,
    t: &[u8],
    q: &[u32],
    g: &[u32],
    w: &[u8],
    l: &[u8],
    ys: &[u32],
    two: Counts,
    other: Verdict,
    list: &mut [u32],
) -> Told
    ensures { IfFit (told_counts one) (held p.now f.now v.now k.now xs.now) (told_counts two) (held q.now g.now w.now l.now ys.now) (Lists (finished_of s.now (told_counts one) (told_verdict verdict) (held p.now f.now v.now k.now xs.now) t.now (told_counts two) (told_verdict other) (held q.now g.now w.now l.now ys.now) list.old) result list.new) }
{
    match verdict {
        Verdict::Stopped { place: _ } => Err(UNFINISHED),
        Verdict::Finished => match other {
            Verdict::Stopped { place: _ } => Err(UNFINISHED),
            Verdict::Finished => fill(s, p, f, v, k, xs, one, t, q, g, w, l, ys, two, list),
        },
    }
}

// The older's answer and the newer's: a refusal of the older, then of the newer.
pub(crate) fn answered(
    s: &[u8],
    p: &[u32],
    f: &[u32],
    v: &[u8],
    k: &[u8],
    xs: &[u32],
    first: Answer,
    t: &[u8],
    q: &[u32],
    g: &[u32],
    w: &[u8],
    l: &[u8],
    ys: &[u32],
    second: Answer,
    list: &mut [u32],
) -> Told
    ensures { IfBoth (told first) (held p.now f.now v.now k.now xs.now) (told second) (held q.now g.now w.now l.now ys.now) (Lists (both_of s.now (told first) (held p.now f.now v.now k.now xs.now) t.now (told second) (held q.now g.now w.now l.now ys.now) list.old) result list.new) }
{
    match first {
        Err(refusal) => Err(Refused {
            whose: Whose::Older,
            number: refusal.number,
            place: refusal.place,
        }),
        Ok(one) => match second {
            Err(refusal) => Err(Refused {
                whose: Whose::Newer,
                number: refusal.number,
                place: refusal.place,
            }),
            Ok(two) => finished(
                s,
                p,
                f,
                v,
                k,
                xs,
                one.counts,
                one.verdict,
                t,
                q,
                g,
                w,
                l,
                ys,
                two.counts,
                two.verdict,
                list,
            ),
        },
    }
}
