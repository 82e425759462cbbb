// The line at a place of the text, as a scan finds it.
ghost use Rattle.std.specs.Prelude.{◌≤◌, length};
ghost use Rattle.steps.specs.Entries.{LineIs};

use text_lines::LineAt;

// The line at a place inside the text ends inside it.
pub(crate) fn line_at(t: &[u8], p: usize) -> LineAt
    requires { p ≤ length t.now }
    ensures { LineIs t.now p result }
{
    text_lines::line_at(t, p)
}
