// The lines of pairs.
ghost use Rattle.header.specs.Told.{form_of};
ghost use Rattle.digits_out.specs.Wrote.{Wrote};
ghost use Rattle.pairs_out.specs.PairsOut.{pair_out, pairs_out};

use content_out::put_content;
use header::Form;
use pair_cells::{pair_bytes, pair_cell};
use relocation_out::put_relocation;

// The T line and the R line of pair i.
fn put_pair(
    out: &mut [u8],
    at: usize,
    form: Form,
    pairs: &[u32],
    i: usize,
    content: &[u8],
    fragments: &[u32],
) -> usize
    ensures { Wrote (pair_out form.big (form_of form).address_length pairs.now content.now fragments.now i) out.old at result out.new }
{
    let address = pair_cell(pairs, i, 1);
    let p = put_content(out, at, form, address, pair_bytes(content, pairs, i));
    let area = pair_cell(pairs, i, 2);
    let first = pair_cell(pairs, i, 5);
    let n = pair_cell(pairs, i, 6);
    put_relocation(out, p, form.big, area, fragments, first, n)
}

// The lines of n pairs.
pub fn put_pairs(
    out: &mut [u8],
    at: usize,
    form: Form,
    pairs: &[u32],
    n: usize,
    content: &[u8],
    fragments: &[u32],
) -> usize
    ensures { Wrote (pairs_out form.big (form_of form).address_length pairs.now content.now fragments.now 0 n) out.old at result out.new }
{
    let mut p = at;
    for i in 0..n {
        p = put_pair(out, p, form, pairs, i, content, fragments);
    }
    p
}
