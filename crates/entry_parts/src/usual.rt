// The usual forms of the fields of an A line, with single spaces, compared at once. What else may stand there is left to the readers of any form.
ghost use Rattle.std.specs.Prelude.{[], ◌∷◌, ◌+◌, ◌<◌, ◌≤◌, length};
ghost use Rattle.format.specs.Entries.{spelled, flags};
ghost use Rattle.entry_parts.specs.Usual.{Four, Worded};

use fields::same_so_far;

// Whether four bytes behind a place are these: no branch in it, so that the four are compared at once.
fn four_of(t: &[u8], at: usize, a: u8, b: u8, c: u8, d: u8) -> bool
    requires { at + 5 ≤ length t.now }
    ensures { Four t.now at a b c d result }
{
    let e = same_so_far(t[at + 1], a, true);
    let f = same_so_far(t[at + 2], b, e);
    let g = same_so_far(t[at + 3], c, f);
    same_so_far(t[at + 4], d, g)
}

// Whether one space, a word of four letters, one space and no blank more stand at a place.
pub(crate) fn usual_four(t: &[u8], at: usize, a: u8, b: u8, c: u8, d: u8) -> bool
    requires { 32 < a }
    ensures { Worded (a ∷ b ∷ c ∷ d ∷ []) t.now at (at + 6) result }
{
    if t.len() < 7 {
        return false;
    }
    if t.len() - 7 < at {
        return false;
    }
    if t[at] != 32 {
        return false;
    }
    if t[at + 5] != 32 {
        return false;
    }
    if t[at + 6] <= 32 {
        return false;
    }
    four_of(t, at, a, b, c, d)
}

// The same for the word flags.
pub(crate) fn usual_flags(t: &[u8], at: usize) -> bool
    ensures { Worded (spelled flags) t.now at (at + 7) result }
{
    if t.len() < 8 {
        return false;
    }
    if t.len() - 8 < at {
        return false;
    }
    if t[at] != 32 {
        return false;
    }
    if t[at + 5] != b's' {
        return false;
    }
    if t[at + 6] != 32 {
        return false;
    }
    if t[at + 7] <= 32 {
        return false;
    }
    four_of(t, at, b'f', b'l', b'a', b'g')
}
