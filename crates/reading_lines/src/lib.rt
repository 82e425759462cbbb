// The lines of a module's text behind its header: both groups, and what they leave in the lent buffers.
#![tactic(auto)]

ghost use Rattle.std.specs.Prelude.{length};
ghost use Rattle.header.specs.Told.{form_of};
ghost use Rattle.answer.specs.Answer.{held};
ghost use Rattle.reading_lines.specs.Laid.{Laid, lines_from};

use answer::{Answer, Refusal};
use header::Form;
use way_in::{Lent, fits_from};

mod answers;
mod group_two;
mod lines;
mod rest;
mod second;
mod turn;

// Both groups from a place on, behind a header that ended at head: 5 to 13, or the counts with the verdict; 0 where the place lies behind the text, or a text or a buffer has not the length that a reading asks for.
pub fn lines_from(
    t: &[u8],
    at: usize,
    head: usize,
    form: Form,
    ended: bool,
    areas: &mut [u32],
    symbols: &mut [u32],
    values: &mut [u8],
    masks: &mut [u8],
    fixups: &mut [u32],
) -> Answer
    ensures { Laid (length t.now) (lines_from ended (form_of form) t.now at head (held areas.old symbols.old values.old masks.old fixups.old)) (held areas.old symbols.old values.old masks.old fixups.old) result (held areas.new symbols.new values.new masks.new fixups.new) }
{
    let lent = Lent {
        areas: areas.len(),
        symbols: symbols.len(),
        values: values.len(),
        masks: masks.len(),
        fixups: fixups.len(),
    };
    if !fits_from(at, t.len(), lent) {
        return Err(Refusal {
            number: 0,
            place: 0,
        });
    }
    lines::read_lines(
        t, at, head, form, ended, areas, symbols, values, masks, fixups,
    )
}
