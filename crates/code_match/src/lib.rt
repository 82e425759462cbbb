// Whether code matches a pattern: at each position the byte has the value's bits wherever the mask has a one.
#![tactic(auto)]

ghost use Rattle.std.specs.Prelude.{◌≡◌, length};
ghost use Rattle.code_match.specs.Match.{agrees as agrees_by, mismatch_from};

use cells::byte_at;

// Whether a byte agrees with a value under a mask.
fn agrees(value: u8, mask: u8, byte: u8) -> bool
    ensures { result ≡ agrees_by value mask byte }
{
    byte & mask == value & mask
}

// The first position at which code does not match a pattern; how many bytes there are where it does. Where the pattern has ended nothing is known.
pub fn first_mismatch(values: &[u8], masks: &[u8], code: &[u8]) -> usize
    ensures { result ≡ mismatch_from values.now masks.now code.now 0 (length code.now) }
{
    let n = code.len();
    for i in 0..n {
        if !agrees(byte_at(values, i), byte_at(masks, i), byte_at(code, i)) {
            return i;
        }
    }
    n
}
