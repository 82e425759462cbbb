// The bytes of a list one by one: a byte put into its place, and the last byte of a text read at once.
#![tactic(auto)]

ghost use Rattle.std.specs.Prelude.{◌≡◌, set};
ghost use Rattle.list_bytes.specs.Last.{last_byte};

// A thing into its place of what was lent; past the end nothing is written.
pub fn put<T: Copy>(out: &mut [T], i: usize, x: T)
    ensures { out.new ≡ set out.old i x }
{
    if i < out.len() {
        out[i] = x;
    }
}

// The last byte of a list, if it stands at the end of the text as one space and two capital digits of radix 16; else 256.
pub fn last_byte(t: &[u8], p: usize, radix: u8) -> u64
    ensures { result ≡ last_byte radix t.now p }
{
    if radix != 16 {
        return 256;
    }
    if t.len() <= p {
        return 256;
    }
    if t.len() - p != 3 {
        return 256;
    }
    if t[p] != 32 {
        return 256;
    }
    digits::two_capitals(t[p + 1], t[p + 2])
}
