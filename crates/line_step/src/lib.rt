// What a line, or a pair of lines, does to its group once it was read: only numbers are asked, no text is looked at.
#![tactic(auto)]

ghost use Rattle.std.specs.Prelude.{◌≡◌, ◌&&◌, eqb, leb};
ghost use Rattle.line_step.specs.Steps.{line_step};

mod ends;

pub use ends::record_end;

// It stops the group; or it is taken, its record ends there, and the reading goes on behind it; or it is taken as the last.
#[derive(Clone, Copy)]
pub enum LineStep {
    Stops,
    Goes { end: usize },
    Last { end: usize },
}

// Whether a line is used whole, and a full line end stands behind it.
pub fn whole(used: usize, n: usize, e: usize) -> bool
    ensures { result ≡ (eqb used n && leb 1 e) }
{
    used == n && 1 <= e
}

// What a line of n bytes does of which so many were used, up to a place; its line end has e bytes, and behind it the next line begins.
pub fn line_step(
    used: usize,
    n: usize,
    e: usize,
    next: usize,
    place: usize,
    ended: bool,
) -> LineStep
    ensures { result ≡ line_step ended used n e next place }
{
    if whole(used, n, e) {
        return LineStep::Goes {
            end: record_end(ended, next, place),
        };
    }
    if ended {
        return LineStep::Stops;
    }
    LineStep::Last { end: place }
}
