// Two and three bytes joined into one number, where each has two capital digits of radix 16 and one space stands between them, as modules have them.
ghost use Rattle.std.specs.Prelude.{◌≡◌, ◌+◌};
ghost use Rattle.digits.specs.Capitals.{capitals};
ghost use Rattle.joined_bytes.specs.Joins.{Joins};

use crate::join_step;

// The first of several bytes, which is mostly 00; or 256.
fn first_byte(a: u8, b: u8) -> u64
    ensures { result ≡ capitals a b }
{
    if a == 48 {
        if b == 48 {
            return 0;
        }
    }
    digits::two_capitals(a, b)
}

// Two bytes as one number, or 65536 where anything else stands there.
pub(crate) fn short_two(t: &[u8], at: usize, radix: u8, big: bool) -> u64
    ensures { Joins radix big 1 t.now at (at + 5) 65536 result }
{
    if radix != 16 {
        return 65536;
    }
    if t.len() <= at {
        return 65536;
    }
    if t.len() - at < 5 {
        return 65536;
    }
    if t[at + 2] != 32 {
        return 65536;
    }
    let a = first_byte(t[at], t[at + 1]);
    if 255 < a {
        return 65536;
    }
    let b = digits::two_capitals(t[at + 3], t[at + 4]);
    if 255 < b {
        return 65536;
    }
    if 48 <= scan::byte_at(t, at + 5) {
        return 65536;
    }
    join_step(big, a, 1, b)
}

// Three bytes as one number, or 2^24 where anything else stands there.
pub(crate) fn short_three(t: &[u8], at: usize, radix: u8, big: bool) -> u64
    ensures { Joins radix big 2 t.now at (at + 8) 16777216 result }
{
    if radix != 16 {
        return 16777216;
    }
    if t.len() <= at {
        return 16777216;
    }
    if t.len() - at < 8 {
        return 16777216;
    }
    if t[at + 2] != 32 {
        return 16777216;
    }
    if t[at + 5] != 32 {
        return 16777216;
    }
    let a = first_byte(t[at], t[at + 1]);
    let b = digits::two_capitals(t[at + 3], t[at + 4]);
    let c = digits::two_capitals(t[at + 6], t[at + 7]);
    if 255 < a {
        return 16777216;
    }
    if 255 < b {
        return 16777216;
    }
    if 255 < c {
        return 16777216;
    }
    if 48 <= scan::byte_at(t, at + 8) {
        return 16777216;
    }
    let v = join_step(big, a, 1, b);
    join_step(big, v, 2, c)
}
