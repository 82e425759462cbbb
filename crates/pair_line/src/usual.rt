// The usual forms of what T and R lines begin with, with single spaces, compared at once. What else may stand there is left to the readers of any form.
ghost use Rattle.std.specs.Prelude.{[], ◌∷◌};
ghost use Rattle.pair_line.specs.Usual.{Led, Zeroed};

use empty_marks::zero_lead;

// Whether a line begins with this letter, one space and no blank more.
pub(crate) fn usual_letter(t: &[u8], letter: u8) -> bool
    ensures { Led (letter ∷ []) t.now 0 2 result }
{
    if t.len() < 3 {
        return false;
    }
    if t[0] != letter {
        return false;
    }
    if t[1] != 32 {
        return false;
    }
    32 < t[2]
}

// Whether a line of radix 16 begins with R, the index 0 and one space, all with single spaces, and no blank more.
pub(crate) fn usual_zero(t: &[u8], radix: u8) -> bool
    ensures { Zeroed radix t.now result }
{
    if radix != 16 {
        return false;
    }
    if t.len() < 9 {
        return false;
    }
    if zero_lead(t[0], t[1], t[2], t[3], t[4], t[5], t[6], t[7]) {
        return 32 < t[8];
    }
    false
}
