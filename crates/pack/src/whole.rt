// Whether a module is whole: finished, and its H line's counts are not unequal to the counted ones.
use answer::{Counts, Verdict};
use counts_of::Counted;
use header::Head;

// Why a module is not taken, or that it is.
#[derive(Clone, Copy)]
pub(crate) enum Whole {
    Yes,
    Stopped(usize),
    Unequal,
}

// Whether what the H line tells is not unequal to what was counted.
fn counts_hold(text: &[u8], counts: Counts) -> bool {
    let Head::Found { form, next } = header::format_spec(text) else {
        return false;
    };
    let head = std::num::wrapping_add_usize(next, scan::line_ending(text, next));
    match counts_of::told_counts(text, head, form, counts.areas, counts.symbols) {
        Counted::Equal => true,
        Counted::NotTold => true,
        Counted::NotEqual => false,
    }
}

// What a reading's counts and verdict say of its text.
pub(crate) fn judged(text: &[u8], counts: Counts, verdict: Verdict) -> Whole {
    match verdict {
        Verdict::Stopped { place } => Whole::Stopped(place),
        Verdict::Finished => {
            if counts_hold(text, counts) {
                return Whole::Yes;
            }
            Whole::Unequal
        }
    }
}
