// Both groups behind the header, and what they leave in the lent buffers.
ghost use Rattle.std.specs.Prelude.{◌≤◌, length};
ghost use Rattle.header.specs.Told.{form_of};
ghost use Rattle.answer.specs.Answer.{held};
ghost use Rattle.way_in.specs.WayIn.{Rooms};
ghost use Rattle.reading_lines.specs.Laid.{Laid, whole_lines};

use crate::rest::rest;
use answer::{Answer, Refusal};
use header::Form;
use rooms::{AREA_ROOM, SYMBOL_ROOM};
use tables::{Listed, group_over};

// The same with room for as many symbols as are not refused.
fn read_many(
    t: &[u8],
    at: usize,
    head: usize,
    form: Form,
    ended: bool,
    areas: &mut [u32],
    symbols: &mut [u32],
    values: &mut [u8],
    masks: &mut [u8],
    fixups: &mut [u32],
) -> Answer
    requires { (at ≤ length t.now) × (length t.now ≤ 65536) × (Rooms (length areas.old) (length symbols.old) (length values.old) (length masks.old) (length fixups.old)) }
    ensures { Laid (length t.now) (whole_lines ended (form_of form) t.now at head) (held areas.old symbols.old values.old masks.old fixups.old) result (held areas.new symbols.new values.new masks.new fixups.new) }
{
    let mut xs = [0u32; AREA_ROOM];
    let mut ys = [0u32; SYMBOL_ROOM];
    let one = group_over(t, at, head, form, ended, &mut xs, &mut ys);
    match one {
        Listed::Refused { number, at } => Err(Refusal { number, place: at }),
        Listed::TooLong => Err(Refusal {
            number: 2,
            place: 0,
        }),
        Listed::Done { found } => rest(
            t, found, form, ended, &mut xs, &ys, areas, symbols, values, masks, fixups,
        ),
    }
}

// Both groups from a place on, behind a header that ended at head. Most modules have 64 symbols at most: a table of so many is made first, and a larger one only where they are more.
pub(crate) fn read_lines(
    t: &[u8],
    at: usize,
    head: usize,
    form: Form,
    ended: bool,
    areas: &mut [u32],
    symbols: &mut [u32],
    values: &mut [u8],
    masks: &mut [u8],
    fixups: &mut [u32],
) -> Answer
    requires { (at ≤ length t.now) × (length t.now ≤ 65536) × (Rooms (length areas.old) (length symbols.old) (length values.old) (length masks.old) (length fixups.old)) }
    ensures { Laid (length t.now) (whole_lines ended (form_of form) t.now at head) (held areas.old symbols.old values.old masks.old fixups.old) result (held areas.new symbols.new values.new masks.new fixups.new) }
{
    let mut xs = [0u32; AREA_ROOM];
    let mut ys = [0u32; 320];
    let one = group_over(t, at, head, form, ended, &mut xs, &mut ys);
    match one {
        Listed::Refused { number, at } => Err(Refusal { number, place: at }),
        Listed::TooLong => Err(Refusal {
            number: 2,
            place: 0,
        }),
        Listed::Done { found } => {
            if 64 < found.symbols {
                return read_many(
                    t, at, head, form, ended, areas, symbols, values, masks, fixups,
                );
            }
            rest(
                t, found, form, ended, &mut xs, &ys, areas, symbols, values, masks, fixups,
            )
        }
    }
}
