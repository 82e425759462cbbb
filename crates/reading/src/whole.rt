// The whole reading of a text: the way in, the header, and the lines behind it.
ghost use Rattle.std.specs.Prelude.{◌≤◌, length};
ghost use Rattle.format.specs.Held.{lengths};
ghost use Rattle.answer.specs.Answer.{held};
ghost use Rattle.way_in.specs.WayIn.{Rooms};
ghost use Rattle.reading_lines.specs.Laid.{Laid};
ghost use Rattle.reading.specs.Whole.{whole_text, whole_by};

use answer::Answer;
use opening::{Opening, open};
use reading_lines::lines_from;
use way_in::{Lent, admit};

// What a text opens with is answered, or the lines behind its header are read.
fn read_text(
    t: &[u8],
    every: bool,
    ended: bool,
    areas: &mut [u32],
    symbols: &mut [u32],
    values: &mut [u8],
    masks: &mut [u8],
    fixups: &mut [u32],
) -> Answer
    ensures { length t.now ≤ 65536 → Rooms (length areas.old) (length symbols.old) (length values.old) (length masks.old) (length fixups.old) → Laid (length t.now) (whole_text every ended t.now) (held areas.old symbols.old values.old masks.old fixups.old) result (held areas.new symbols.new values.new masks.new fixups.new) }
{
    match open(t, every, ended) {
        Opening::Answered { answer } => answer,
        Opening::Lines { form, at, head } => lines_from(
            t, at, head, form, ended, areas, symbols, values, masks, fixups,
        ),
    }
}

// The plain or the ended reading, of every radix if it is told so.
pub(crate) fn read(
    t: &[u8],
    every: bool,
    ended: bool,
    areas: &mut [u32],
    symbols: &mut [u32],
    values: &mut [u8],
    masks: &mut [u8],
    fixups: &mut [u32],
) -> Answer
    ensures { Laid (length t.now) (whole_by every ended (lengths (held areas.old symbols.old values.old masks.old fixups.old)) t.now) (held areas.old symbols.old values.old masks.old fixups.old) result (held areas.new symbols.new values.new masks.new fixups.new) }
{
    let lent = Lent {
        areas: areas.len(),
        symbols: symbols.len(),
        values: values.len(),
        masks: masks.len(),
        fixups: fixups.len(),
    };
    admit(t, lent)?;
    read_text(t, every, ended, areas, symbols, values, masks, fixups)
}
