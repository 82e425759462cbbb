// Bytes of two capital digits of radix 16, as modules have them, read without a loop. What else may stand there is left to the readers of any number.
ghost use Rattle.std.specs.Prelude.{◌+◌, ◌≤◌, length};
ghost use Rattle.quick_numbers.specs.Short.{Two, Short, Spaced};

// Two digits with no third behind them as a byte, or 256 where anything else stands there.
fn two_digits(t: &[u8], at: usize) -> u64
    requires { at + 2 ≤ length t.now }
    ensures { Two t.now at result }
{
    let v = digits::two_capitals(t[at], t[at + 1]);
    if 48 <= scan::byte_at(t, at + 2) {
        return 256;
    }
    v
}

// A byte of two digits, or 256.
pub(crate) fn short_byte(t: &[u8], at: usize, radix: u8) -> u64
    ensures { Short radix t.now at result }
{
    if radix != 16 {
        return 256;
    }
    if t.len() <= at {
        return 256;
    }
    if t.len() - at < 2 {
        return 256;
    }
    two_digits(t, at)
}

// A byte of two digits behind one space, or 256.
pub(crate) fn spaced_byte(t: &[u8], at: usize, radix: u8) -> u64
    ensures { Spaced radix t.now at result }
{
    if radix != 16 {
        return 256;
    }
    if t.len() <= at {
        return 256;
    }
    if t.len() - at < 3 {
        return 256;
    }
    if t[at] != 32 {
        return 256;
    }
    two_digits(t, at + 1)
}
