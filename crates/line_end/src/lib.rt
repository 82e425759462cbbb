// Whether a fragment runs past the end of its line: refusal 10.
#![tactic(auto)]

ghost use Rattle.std.specs.Prelude.{◌≡◌, ◌+◌, ltb};
ghost use Rattle.format.specs.Mode.{touched_of};
ghost use Rattle.mode.specs.Class.{told_class};

use class_rows::touched;
use mode::JumpType;

// Whether the entries that a class touches, from an entry on, run past an end.
pub fn runs_past(end: usize, class: JumpType, three: bool, entry: usize) -> bool
    ensures { result ≡ ltb end (entry + touched_of (told_class class) three) }
{
    let n = touched(class, three);
    end < n || end - n < entry
}
