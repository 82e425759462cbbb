// A sum over numbers that tells their order.

// One number more.
fn step(sum: u64, v: u32) -> u64 {
    (sum % 0x1_0000_0000 * 33 + v as u64) % 0x1_0000_0000
}

// The first n numbers.
pub(crate) fn of_numbers(rows: &[u32], n: usize, start: u64) -> u64 {
    let mut sum = start;
    for i in 0..n {
        sum = step(sum, cells::at(rows, i));
    }
    sum
}

// The first n bytes.
pub(crate) fn of_bytes(bytes: &[u8], n: usize, start: u64) -> u64 {
    let mut sum = start;
    for i in 0..n {
        sum = step(sum, cells::byte_at(bytes, i) as u32);
    }
    sum
}
