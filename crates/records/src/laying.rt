// The records of a text that is accepted, laid over the lent buffers.
ghost use Rattle.std.specs.Prelude.{◌≤◌, ◌≡◌, true, length};
ghost use Rattle.record_rows.specs.ReadPairs.{pairs_room};
ghost use Rattle.pair_rows.specs.Rows.{held};
ghost use Rattle.admission.specs.Admits.{IsReadAny};
ghost use Rattle.records.specs.Walking.{Laid};

use crate::group_two::group_two_at;
use crate::walk::store_all;
use answer::Refusal;
use header::Head;
use pairs_answer::PairsAnswer;

// The records of a text that the ended reading accepts, its header of any radix; that header is looked for again.
pub(crate) fn lay_text(
    t: &[u8],
    pairs: &mut [u32],
    content: &mut [u8],
    fragments: &mut [u32],
) -> PairsAnswer
    requires { (IsReadAny t.now) × (pairs_room (held pairs.old content.old fragments.old) ≡ true) }
    ensures { Laid t.now (held pairs.old content.old fragments.old) result (held pairs.new content.new fragments.new) }
{
    let Head::Found { form, next } = header::format_spec(t) else {
        return Err(Refusal {
            number: 4,
            place: 0,
        });
    };
    let at = next + scan::line_ending(t, next);
    let p = group_two_at(t, at, form);
    let counts = store_all(t, p, form, pairs, content, fragments);
    Ok(counts)
}
