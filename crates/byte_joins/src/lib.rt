// Two or three bytes joined to a number. A byte over 255 is none, as the reader of two capital digits answers it; then the answer is a number that no bytes make.
#![tactic(auto)]

ghost use Rattle.std.specs.Prelude.{◌≡◌};
ghost use Rattle.byte_joins.specs.Joins.{two_joined, three_joined};

use joined_bytes::{join_third, join_two};

// Two bytes joined, or 65536 where one is none.
pub fn two_joined(big: bool, x: u64, y: u64) -> u64
    ensures { result ≡ two_joined big x y }
{
    if 255 < x {
        return 65536;
    }
    if 255 < y {
        return 65536;
    }
    join_two(big, x as u8, y as u8)
}

// Three bytes joined, or 2^24 where one is none.
pub fn three_joined(big: bool, a: u64, b: u64, c: u64) -> u64
    ensures { result ≡ three_joined big a b c }
{
    if 255 < a {
        return 16777216;
    }
    if 255 < b {
        return 16777216;
    }
    if 255 < c {
        return 16777216;
    }
    join_third(big, join_two(big, a as u8, b as u8) as u16, c as u8)
}
