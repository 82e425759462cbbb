// The bytes of a lent part joined, big or little, four at most.
ghost use Rattle.std.specs.Prelude.{◌≡◌, ◌<◌, ◌-◌, min, take};
ghost use Rattle.format.specs.Lists.{pick};
ghost use Rattle.format.specs.Number.{join};

// Where the i-th of n digits from the highest stands.
fn place(big: bool, n: usize, i: usize) -> usize
    requires { i < n }
    ensures { (result ≡ pick big i (n - 1 - i)) × (result < n) }
{
    if big { i } else { n - 1 - i }
}

// The first n bytes of a part, four at most, as one number: big, the first byte is the highest; little, the last.
pub fn endian_to_number(big: bool, part: &[u8], n: usize) -> u32
    ensures { result ≡ join big (take (min n 4) part.now) }
{
    let k = n.min(4).min(part.len());
    let mut number: u32 = 0;
    for i in 0..k {
        let at = place(big, k, i);
        number = (number << 8) + u32::from(part[at]);
    }
    number
}
