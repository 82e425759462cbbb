// The work line of a pair: its content, and its fragments worked in.
// Here bs are the content bytes; ms and es the fragments' modes and entries; wv, wm and wk the work line's values, masks and kept flags; ns the numbers made.
#![tactic(auto)]

ghost use Rattle.std.specs.Prelude.{◌≡◌, List, [], ◌∷◌, ◌++◌, ℕ, ◌≤◌, ◌<◌, ◌+◌, length, take, drop, get_or};
ghost use Rattle.format.specs.Mode.{touched_of};
ghost use Rattle.mode.specs.Class.{told_class};
ghost use Rattle.sites.specs.Site.{Short};
ghost use Rattle.work.specs.Work.{line_of, reach_by, Applied, Turned, Reached, WorkIs};

use cells::{at, put_u32, wide};
use fresh_line::lay_line;
use line_end::runs_past;
use mode::{JumpType, class_of};
use mode_step::modify_cmf_to_fixup;
use sites::Line;

// A fragment's part of the work line, from its entry on, goes to the mode step.
fn apply(
    class: JumpType,
    three: bool,
    big: bool,
    entry: usize,
    wv: &mut [u8],
    wm: &mut [u8],
    wk: &mut [u8],
) -> Option<u32>
    requires three_in_bounds { entry + touched_of (told_class class) three ≤ length wv.old }
    requires three_in_bounds_2 { entry + touched_of (told_class class) three ≤ length wm.old }
    requires three_in_bounds_3 { entry + touched_of (told_class class) three ≤ length wk.old }
    ensures { Applied (told_class class) three big entry result wv.old wm.old wk.old wv.new wm.new wk.new }
{
    modify_cmf_to_fixup(
        class,
        three,
        big,
        &mut wv[entry..],
        &mut wm[entry..],
        &mut wk[entry..],
    )
}

// One more number behind the m that are there; answers how many there are then.
fn push(ns: &mut [u32], m: usize, x: u32) -> usize
    requires { (m < length ns.old) × (m < 64) }
    ensures { (result ≡ m + 1) × (take (m + 1) ns.new ≡ take m ns.old ++ x ∷ []) × (drop (m + 1) ns.new ≡ drop (m + 1) ns.old) }
{
    put_u32(ns, m, x);
    m + 1
}

// A fragment of a mode whose entry is at least A, with m numbers made before it: how many are made then, or none where its entries run past the line.
fn work_in(
    line: Line,
    mode: u32,
    entry: usize,
    wv: &mut [u8; 260],
    wm: &mut [u8; 260],
    wk: &mut [u8; 260],
    ns: &mut [u32],
    m: usize,
) -> Option<usize>
    requires short { Short line }
    requires m_in_bounds { (m < length ns.old) × (m < 64) }
    ensures { (ms es : List ℕ) (i : ℕ) → mode ≡ get_or ms i 0 → entry ≡ get_or es i 0 → line.width ≤ entry → Turned line ms es i wv.old wm.old wk.old ns.old m result wv.new wm.new wk.new ns.new }
{
    let class = class_of(mode);
    let three = mode / 256 % 2 == 1;
    if runs_past(line.width + line.bytes, class, three, entry) {
        return None;
    }
    let x = apply(class, three, line.big, entry, wv, wm, wk)?;
    Some(push(ns, m, x))
}

// The i-th fragment, and how many numbers are made then, or none where it runs past the line: one whose entry is below A does nothing here.
fn turn(
    line: Line,
    ms: &[u32],
    es: &[u32],
    i: usize,
    wv: &mut [u8; 260],
    wm: &mut [u8; 260],
    wk: &mut [u8; 260],
    ns: &mut [u32],
    m: usize,
) -> Option<usize>
    requires short { Short line }
    requires m_in_bounds { (m < length ns.old) × (m < 64) }
    ensures { Turned line ms.now es.now i wv.old wm.old wk.old ns.old m result wv.new wm.new wk.new ns.new }
{
    let entry = wide(at(es, i));
    if entry < line.width {
        return Some(m);
    }
    work_in(line, at(ms, i), entry, wv, wm, wk, ns, m)
}

// All fragments, in order, and how many numbers they made; or none, up to one that runs past the line.
fn work_all(
    line: Line,
    ms: &[u32],
    es: &[u32],
    wv: &mut [u8; 260],
    wm: &mut [u8; 260],
    wk: &mut [u8; 260],
    ns: &mut [u32],
) -> Option<usize>
    requires short { Short line }
    requires in_bounds { 64 ≤ length ns.old }
    ensures { Reached (reach_by line ms.now es.now (line_of wv.old wm.old wk.old ns.old 0)) line.fragments ns.old result wv.new wm.new wk.new ns.new }
{
    let mut m: usize = 0;
    for i in 0..line.fragments {
        m = turn(line, ms, es, i, wv, wm, wk, ns, m)?;
    }
    Some(m)
}

// The work line of a pair, from its content to its fragments worked in, and how many numbers they made; or none, where one runs past the line, up to which all are worked in, and where the line is not within the bounds, so that nothing is laid.
pub fn work_line(
    line: Line,
    bs: &[u8],
    ms: &[u32],
    es: &[u32],
    wv: &mut [u8; 260],
    wm: &mut [u8; 260],
    wk: &mut [u8; 260],
    ns: &mut [u32; 64],
) -> Option<usize>
    ensures { WorkIs line bs.now ms.now es.now wv.old wm.old wk.old ns.old result wv.new wm.new wk.new ns.new }
{
    if !lay_line(line, bs, wv, wm, wk) {
        return None;
    }
    work_all(line, ms, es, wv, wm, wk, ns)
}
