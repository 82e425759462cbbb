// Group two: its pairs read, counted and placed, turn after turn, from a place on.
ghost use Rattle.std.specs.Prelude.{◌≡◌, ◌≤◌, length};
ghost use Rattle.header.specs.Told.{form_of};
ghost use Rattle.reading_lines.specs.Onward.{Ready, Columns, GroupedTwo, Carried, onward_at};

use crate::turn::take_turn;
use header::Form;
use turns::{Paired, Progress, Turn, two_of};

// Turn after turn from a place on. The rows of areas and symbols are a and s, the images vs and fs.
fn rounds(
    t: &[u8],
    start: Progress,
    form: Form,
    ended: bool,
    a: &mut [u32],
    s: &[u32],
    bs: &mut [u8; 256],
    ms: &mut [u32; 64],
    es: &mut [u32; 64],
    xs: &mut [u32; 64],
    vs: &mut [u8],
    fs: &mut [u8],
    rows: &mut [u32],
) -> Paired
    requires { (Ready t.now a.old start) × (length t.now ≤ 65536) × (9216 ≤ length rows.old) × (Columns bs.old ms.old es.old xs.old) }
    ensures { (GroupedTwo (onward_at ended (form_of form) t.now a.old s.now start vs.old fs.old rows.old) result vs.new fs.new rows.new) × (Carried start.areas a.old fs.old a.new fs.new) }
{
    let mut g = start;
    loop {
        let u = take_turn(t, g, form, ended, a, s, bs, ms, es, xs, vs, fs, rows);
        let Turn::Goes { going } = u else {
            return two_of(u);
        };
        g = going;
    }
}

// Group two from a place on. The arrays for a pair's bytes and fragments are made once for all pairs.
pub(crate) fn group_two(
    t: &[u8],
    start: Progress,
    form: Form,
    ended: bool,
    areas: &mut [u32],
    symbols: &[u32],
    values: &mut [u8],
    masks: &mut [u8],
    rows: &mut [u32],
) -> Paired
    requires { (Ready t.now areas.old start) × (length t.now ≤ 65536) × (9216 ≤ length rows.old) }
    ensures { (GroupedTwo (onward_at ended (form_of form) t.now areas.old symbols.now start values.old masks.old rows.old) result values.new masks.new rows.new) × (Carried start.areas areas.old masks.old areas.new masks.new) }
{
    let mut bs = [0u8; 256];
    let mut ms = [0u32; 64];
    let mut es = [0u32; 64];
    let mut xs = [0u32; 64];
    rounds(
        t, start, form, ended, areas, symbols, &mut bs, &mut ms, &mut es, &mut xs, values, masks,
        rows,
    )
}
