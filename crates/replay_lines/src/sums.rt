// Short sums over bytes and numbers, so that a list is one value of an answer.

// A sum with one number more.
fn mixed(sum: u64, x: u64) -> u64 {
    ((sum % 65521) * 31 + x % 4294967296) % 65521
}

// The sum over so many bytes from a place on, or over those that are there.
pub(crate) fn byte_sum(t: &[u8], at: usize, len: usize) -> u64 {
    t.iter()
        .skip(at)
        .take(len)
        .fold(0, |sum, b| mixed(sum, u64::from(*b)))
}

// The sum over the fragments that were written.
pub(crate) fn fragment_sum(
    modes: &[u32; 64],
    entries: &[u32; 64],
    indexes: &[u32; 64],
    count: usize,
) -> u64 {
    let mut sum = 0;
    for i in 0..count.min(64) {
        for x in [modes[i], entries[i], indexes[i]] {
            sum = mixed(sum, u64::from(x));
        }
    }
    sum
}
