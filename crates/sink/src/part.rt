// Parts of lent bytes, and places, none of them past the end.
ghost use Rattle.std.specs.Prelude.{◌≡◌, ◌+◌, min, take};

// The first n bytes, or all where there are fewer.
pub fn first_bytes(bytes: &[u8], n: usize) -> &[u8]
    ensures { result.now ≡ take n bytes.now }
{
    &bytes[..n.min(bytes.len())]
}

// The place behind n bytes from a place on, but not past the end.
pub fn end_of(at: usize, n: usize, end: usize) -> usize
    ensures { result ≡ min (at + n) end }
{
    at.saturating_add(n).min(end)
}
