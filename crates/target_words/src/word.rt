// Numbers of 64 bits whose sums and differences wrap, and shifts whose count counts modulo 64.
ghost use Rattle.std.specs.Prelude.{◌≡◌};
ghost use Rattle.format.specs.Target.{wrap_add, wrap_sub};
ghost use Rattle.target_words.specs.Shifted.{shifted_left, shifted_right};

// The sum, wrapped at 64 bits.
pub fn add64(a: u64, b: u64) -> u64
    ensures { result ≡ wrap_add a b }
{
    a.wrapping_add(b)
}

// The difference, wrapped at 64 bits.
pub fn sub64(a: u64, b: u64) -> u64
    ensures { result ≡ wrap_sub a b }
{
    a.wrapping_sub(b)
}

// x shifted left; bits above the 64th are lost.
pub fn shl64(x: u64, k: u64) -> u64
    ensures { result ≡ shifted_left x k }
{
    x << (k % 64)
}

// x shifted right.
pub fn shr64(x: u64, k: u64) -> u64
    ensures { result ≡ shifted_right x k }
{
    x >> (k % 64)
}
