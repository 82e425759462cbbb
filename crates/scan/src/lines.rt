// Line ends.
ghost use Rattle.std.specs.Prelude.{◌≡◌, drop};
ghost use Rattle.format.specs.Lines.{end_length};

use crate::kinds::byte_at;

// The length of the full line end at a place: 1 for LF, 2 for CR LF, 0 where there is none.
pub fn line_ending(t: &[u8], at: usize) -> usize
    ensures { result ≡ end_length (drop at t.now) }
{
    if t.len() <= at {
        return 0;
    }
    let a = t[at];
    if a == b'\n' {
        return 1;
    }
    if a == b'\r' && byte_at(t, at + 1) == b'\n' {
        return 2;
    }
    0
}
