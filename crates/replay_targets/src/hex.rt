// Numbers in hex at fixed places of a line.
ghost use Rattle.std.specs.Prelude.{◌<◌, ◌≤◌};

// The worth of a digit in capital hex; a byte that is none has some worth as well.
fn worth(b: u8) -> u64
    ensures { result < 16 }
{
    if b <= b'9' {
        u64::from(b % 16)
    } else {
        u64::from((b % 16 + 9) % 16)
    }
}

// A line's byte, or 0 past its end.
pub(crate) fn at(line: &[u8], i: usize) -> u8 {
    line.get(i).copied().unwrap_or(0)
}

// The number that n digits from a place on write, its low 64 bits.
pub(crate) fn number(line: &[u8], from: usize, n: usize) -> u64
    requires { (from ≤ 100) × (n ≤ 16) }
{
    let mut v: u64 = 0;
    for i in 0..n {
        v = (v << 4).wrapping_add(worth(at(line, from + i)));
    }
    v
}

// A number of at most 8 digits.
pub(crate) fn short(line: &[u8], from: usize, n: usize) -> u32
    requires { (from ≤ 100) × (n ≤ 16) }
{
    (number(line, from, n) % 0x1_0000_0000) as u32
}

// A byte of two digits.
pub(crate) fn byte(line: &[u8], from: usize) -> u8
    requires { from ≤ 100 }
{
    (number(line, from, 2) % 256) as u8
}

// Four bytes, one behind the other.
pub(crate) fn four(line: &[u8], from: usize) -> [u8; 4]
    requires { from ≤ 90 }
{
    [
        byte(line, from),
        byte(line, from + 2),
        byte(line, from + 4),
        byte(line, from + 6),
    ]
}
