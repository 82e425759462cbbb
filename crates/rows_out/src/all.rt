// All lines.
ghost use Rattle.header.specs.Told.{form_of};
ghost use Rattle.digits_out.specs.Wrote.{Wrote};
ghost use Rattle.row_texts.specs.RowRecords.{lent};
ghost use Rattle.rows_out.specs.RowsOut.{all_out};

use entries_out::put_entries;
use head_out::put_head;
use header::Form;
use pairs_out::put_pairs;

// All lines, from the start on. What has no room is not stored; the answer is the place behind all of it.
pub fn put_all(
    out: &mut [u8],
    form: Form,
    text: &[u8],
    areas: &[u32],
    na: usize,
    symbols: &[u32],
    ns: usize,
    pairs: &[u32],
    np: usize,
    content: &[u8],
    fragments: &[u32],
) -> usize
    ensures { Wrote (all_out (form_of form) (lent text.now areas.now na symbols.now ns pairs.now np content.now fragments.now)) out.old 0 result out.new }
{
    let p = put_head(out, form);
    let q = put_entries(out, p, text, areas, na, symbols, ns);
    put_pairs(out, q, form, pairs, np, content, fragments)
}
