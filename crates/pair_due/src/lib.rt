// Whether the line at which the ended reading stopped is looked at as a T line, of which a pair was due.
#![tactic(auto)]

ghost use Rattle.std.specs.Prelude.{◌≡◌, ◌||◌, get_or, eqb};
ghost use Rattle.laws.specs.Places.{line_at};

// Whether a line is looked at as a T line: once a pair was taken every line is.
fn by_pair(t: &[u8], paired: bool) -> bool
    ensures { result ≡ (paired || eqb (get_or t.now 0 0) 84) }
{
    paired || scan::byte_at(t, 0) == b'T'
}

// The same of the line at a place; past the end of the text the line has no bytes.
pub fn pair_due(t: &[u8], p: usize, paired: bool) -> bool
    ensures { result ≡ (paired || eqb (get_or (line_at t.now p).bytes 0 0) 84) }
{
    if t.len() < p {
        return paired;
    }
    let l = text_lines::line_at(t, p);
    let q = l.end;
    by_pair(&t[p..q], paired)
}
