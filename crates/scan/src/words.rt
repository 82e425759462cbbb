// A fixed word of a line.
ghost use Rattle.std.specs.Prelude.{◌≡◌};
ghost use Rattle.format.specs.Number.{behind};

// The place behind the word w, or the same place where it does not stand there.
pub fn past_word(t: &[u8], at: usize, w: &[u8]) -> usize
    ensures { result ≡ behind w.now t.now at }
{
    let mut p = at;
    for b in w {
        if t.len() <= p {
            return at;
        }
        if *b != t[p] {
            return at;
        }
        p += 1;
    }
    p
}
