// What a mode's bits, the bytes on site and a number say, and how far behind the address a relative target counts.
ghost use Rattle.std.specs.Prelude.{◌≡◌, ◌<◌, slice_index};
ghost use Rattle.format.specs.Lists.{pick};
ghost use Rattle.format.specs.Mode.{bit};

// Whether bit k of a mode is set; a mode has 32 bits.
#[tactic(auto, unfolding(format::specs::Mode::bit))]
pub fn has(mode: u32, k: u32) -> bool
    ensures { result ≡ bit k mode }
{
    k < 32 && (mode >> k) % 2 == 1
}

// A byte on site, or 0 past the last one.
pub fn byte_at(bytes: &[u8], i: usize) -> u8
    ensures { result ≡ slice_index bytes.now i }
{
    bytes.get(i).copied().unwrap_or(0)
}

// A number of 32 bits as one of 64.
pub fn wide(x: u32) -> u64
    ensures { (result ≡ x) × (result < 4294967296) }
{
    u64::from(x)
}

// How far behind the address a relative target counts.
pub fn behind(mode: u32) -> u64
    ensures { result ≡ pick (bit 0 mode) 1 2 }
{
    if has(mode, 0) { 1 } else { 2 }
}
