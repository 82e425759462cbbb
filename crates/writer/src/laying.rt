// The text written into an array of its own, read there, and only then laid over the lent buffer.
ghost use Rattle.std.specs.Prelude.{◌≡◌};
ghost use Rattle.header.specs.Told.{form_of};
ghost use Rattle.row_texts.specs.RowRecords.{lent};
ghost use Rattle.row_texts.specs.GoodRows.{good_rows};
ghost use Rattle.writer.specs.Lays.{Lays, LaysAll};
ghost use Rattle.written_answer.specs.Answer.{told};

use admits::admit;
use good_entries::{areas_good, symbols_good};
use good_rows::pairs_good;
use header::Form;
use row_parts::part;
use rows_out::put_all;
use written_answer::Refusal;

// Whether all rows can be written.
pub(crate) fn rows_good(
    form: Form,
    text: &[u8],
    areas: &[u32],
    na: usize,
    symbols: &[u32],
    ns: usize,
    pairs: &[u32],
    np: usize,
    content: &[u8],
    fragments: &[u32],
) -> bool
    ensures { result ≡ good_rows (form_of form) (lent text.now areas.now na symbols.now ns pairs.now np content.now fragments.now) }
{
    if !areas_good(text, areas, na) {
        return false;
    }
    if !symbols_good(text, na, symbols, ns) {
        return false;
    }
    pairs_good(form, pairs, np, content.len(), fragments)
}

// The first n bytes laid over a buffer, if they are a text that the ended reading accepts and there is room.
fn lay(own: &[u8], n: usize, out: &mut [u8]) -> Result<usize, Refusal>
    ensures { Lays own.now n out.old (told result) out.new }
{
    if own.len() < n {
        return Err(Refusal {
            number: 15,
            place: 0,
        });
    }
    let Ok(()) = admit(part(own, 0, n)) else {
        return Err(Refusal {
            number: 15,
            place: 0,
        });
    };
    if out.len() < n {
        return Err(Refusal {
            number: 16,
            place: 0,
        });
    }
    cells::copy_bytes(out, 0, own, n);
    Ok(n)
}

// All of it, in a lent array.
pub(crate) fn write_with(
    own: &mut [u8],
    form: Form,
    text: &[u8],
    areas: &[u32],
    na: usize,
    symbols: &[u32],
    ns: usize,
    pairs: &[u32],
    np: usize,
    content: &[u8],
    fragments: &[u32],
    out: &mut [u8],
) -> Result<usize, Refusal>
    ensures { LaysAll (form_of form) (lent text.now areas.now na symbols.now ns pairs.now np content.now fragments.now) own.old out.old (told result) out.new }
{
    let n = put_all(
        own, form, text, areas, na, symbols, ns, pairs, np, content, fragments,
    );
    lay(own, n, out)
}
