// A number that has to be 0.
#![tactic(auto)]

ghost use Rattle.std.specs.Prelude.{◌≡◌};
ghost use Rattle.zero_only.specs.Zero.{zero_or};

use numbers::Read;

// What was read, if it is 0; another number is the halt that is given for it, and a halt of any type stays what it is.
pub fn zero_only<H: Copy>(i: Result<Read<u32>, H>, other: H) -> Result<Read<u32>, H>
    ensures { result ≡ zero_or i other }
{
    let Ok(n) = i else {
        return i;
    };
    if n.value == 0 {
        return Ok(n);
    }
    Err(other)
}
