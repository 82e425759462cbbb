// Group two over images of as many positions as there are.
ghost use Rattle.std.specs.Prelude.{◌≡◌, ◌≤◌, length};
ghost use Rattle.header.specs.Told.{form_of};
ghost use Rattle.reading_lines.specs.Onward.{Ready};
ghost use Rattle.reading_lines.specs.Laid.{SecondIs};

use crate::group_two::group_two;
use header::Form;
use rooms::{AREA_ROOM, FIXUP_ROOM};
use turns::{Paired, Progress, ending};

// Group two, if there is one, over images of as many positions as there are.
fn second(
    t: &[u8],
    g: Progress,
    form: Form,
    ended: bool,
    areas: &mut [u32],
    symbols: &[u32],
    values: &mut [u8],
    masks: &mut [u8],
    rows: &mut [u32],
) -> Paired
    requires { (Ready t.now areas.old g) × (length t.now ≤ 65536) × (9216 ≤ length rows.old) × (g.positions ≤ length values.old) × (g.positions ≤ length masks.old) }
    ensures { SecondIs ended (form_of form) t.now areas.old symbols.now g values.old masks.old rows.old result areas.new values.new masks.new rows.new }
{
    if !g.on {
        return ending(g);
    }
    let n = g.positions;
    group_two(
        t,
        g,
        form,
        ended,
        areas,
        symbols,
        &mut values[..n],
        &mut masks[..n],
        rows,
    )
}

// The same with the tables and rows in arrays.
pub(crate) fn second_over(
    t: &[u8],
    g: Progress,
    form: Form,
    ended: bool,
    areas: &mut [u32; AREA_ROOM],
    symbols: &[u32],
    values: &mut [u8],
    masks: &mut [u8],
    rows: &mut [u32; FIXUP_ROOM],
) -> Paired
    requires { (Ready t.now areas.old g) × (length t.now ≤ 65536) × (9216 ≤ length rows.old) × (g.positions ≤ length values.old) × (g.positions ≤ length masks.old) }
    ensures second_is { SecondIs ended (form_of form) t.now areas.old symbols.now g values.old masks.old rows.old result areas.new values.new masks.new rows.new }
    ensures rows_len_unchanged { length rows.new ≡ length rows.old }
{
    second(t, g, form, ended, areas, symbols, values, masks, rows)
}
