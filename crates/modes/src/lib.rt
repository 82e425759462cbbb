// A mode: one byte below F0, or two.
#![tactic(auto)]

ghost use Rattle.std.specs.Prelude.{◌≡◌, ◌%◌, ◌*◌, ◌+◌, ◌<◌};
ghost use Rattle.format.specs.Pairs.{any_mode, mode_of};
ghost use Rattle.numbers.specs.Told.{told};

use numbers::{Halt, Parsed, Read, Reason};

// Two bytes as a mode: read big in every module, and reduced to the low 12 bits.
pub fn long_mode(high: u8, low: u8) -> u32
    ensures { result ≡ (high * 256 + low) % 4096 }
{
    ((u32::from(high) << 8) + u32::from(low)) % 4096
}

// One byte below F0, or two.
fn any_mode(t: &[u8], at: usize, radix: u8) -> Parsed<u32>
    ensures { told result ≡ any_mode radix t.now at }
{
    let high = quick_numbers::parse_byte(t, at, radix)?;
    if high.value < 240 {
        return Ok(high);
    }
    let low = quick_numbers::next_byte(t, high.next, radix)?;
    Ok(Read {
        value: long_mode(high.value as u8, low.value as u8),
        next: low.next,
    })
}

// A mode below 2,048: bit 11 does not read.
pub fn parse_extended_mode(t: &[u8], at: usize, radix: u8) -> Parsed<u32>
    ensures { told result ≡ mode_of radix t.now at }
{
    let mode = any_mode(t, at, radix)?;
    if mode.value < 2048 {
        return Ok(mode);
    }
    Err(Halt {
        reason: Reason::Other,
        at,
    })
}
