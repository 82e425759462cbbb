// The counts, and the refusal of group two.
ghost use Rattle.std.specs.Prelude.{◌≡◌};
ghost use Rattle.reading_lines.specs.Laid.{counts_from, answer_two};

use answer::{Answer, Counts, Refusal};
use kept_sizes::Sizes;
use tables::Found;
use turns::Paired;

// How much there is.
pub(crate) fn counts_of(found: Found, sizes: Sizes, lines: usize, fixups: usize) -> Counts
    ensures { result ≡ counts_from found sizes lines fixups }
{
    Counts {
        areas: found.areas,
        symbols: found.symbols,
        lines: lines,
        kept: sizes.kept,
        positions: sizes.total,
        fixups: fixups,
    }
}

// The refusal of group two.
pub(crate) fn refuse_two(two: Paired) -> Answer
    ensures { result ≡ answer_two two }
{
    match two {
        Paired::Rejected { number, at } => Err(Refusal { number, place: at }),
        Paired::All {
            lines: _,
            stop: _,
            fixups: _,
        } => Err(Refusal {
            number: 0,
            place: 0,
        }),
    }
}
