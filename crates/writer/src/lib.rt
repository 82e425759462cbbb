// A module's text written from rows into a lent buffer, or a refusal that leaves the buffer as it was.
#![tactic(auto)]

ghost use Rattle.header.specs.Told.{form_of};
ghost use Rattle.row_texts.specs.RowRecords.{lent};
ghost use Rattle.written_answer.specs.Answer.{told};
ghost use Rattle.writer.specs.Writes.{Writes};

use header::Form;
use written_answer::Refusal;

mod laying;

// The text of na areas, ns symbols and np pairs: 15 where it would not give them back, 16 where the buffer has no room for it.
pub fn write_module(
    form: Form,
    text: &[u8],
    areas: &[u32],
    na: usize,
    symbols: &[u32],
    ns: usize,
    pairs: &[u32],
    np: usize,
    content: &[u8],
    fragments: &[u32],
    out: &mut [u8],
) -> Result<usize, Refusal>
    ensures { Writes (form_of form) (lent text.now areas.now na symbols.now ns pairs.now np content.now fragments.now) out.old (told result) out.new }
{
    if !laying::rows_good(
        form, text, areas, na, symbols, ns, pairs, np, content, fragments,
    ) {
        return Err(Refusal {
            number: 15,
            place: 0,
        });
    }
    let mut own = [0u8; 65536];
    laying::write_with(
        &mut own, form, text, areas, na, symbols, ns, pairs, np, content, fragments, out,
    )
}
