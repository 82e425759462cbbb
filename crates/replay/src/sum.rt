// The sum over an answer: it turns by seven bits before each number is added.
use answer::{Counts, Verdict};
use rooms::{AREA_WIDTH, FIXUP_WIDTH, SYMBOL_WIDTH};

// One number more.
fn mix(h: u64, x: u64) -> u64 {
    h.rotate_left(7).wrapping_add(x)
}

// The place where a reading stopped; 0 if it finished.
pub(crate) fn stop(verdict: Verdict) -> u64 {
    match verdict {
        Verdict::Finished => 0,
        Verdict::Stopped { place } => place as u64,
    }
}

// 1 if the reading finished.
fn finished(verdict: Verdict) -> u64 {
    match verdict {
        Verdict::Finished => 1,
        Verdict::Stopped { place: _ } => 0,
    }
}

// The sum over verdict and counts.
pub(crate) fn verdict_and_counts(verdict: Verdict, counts: Counts) -> u64 {
    let h1 = mix(finished(verdict), counts.areas as u64);
    let h2 = mix(h1, counts.symbols as u64);
    let h3 = mix(h2, counts.lines as u64);
    let h4 = mix(h3, counts.kept as u64);
    let h5 = mix(h4, counts.positions as u64);
    mix(h5, counts.fixups as u64)
}

// The numbers in the rows of so many areas; 0 for more than there can be.
pub(crate) fn area_numbers(n: usize) -> usize {
    if n <= 64 { n * AREA_WIDTH } else { 0 }
}

// The numbers in the rows of so many symbols; 0 for more than there can be.
pub(crate) fn symbol_numbers(n: usize) -> usize {
    if n <= 1024 { n * SYMBOL_WIDTH } else { 0 }
}

// The numbers in the rows of so many fixups; 0 for more than there can be.
pub(crate) fn fixup_numbers(n: usize) -> usize {
    if n <= 1024 { n * FIXUP_WIDTH } else { 0 }
}

// The sum over the first n numbers of area rows, or all, but for the known bits: the Rust has none.
pub(crate) fn area_words(rows: &[u32], n: usize, h: u64) -> u64 {
    let mut s = h;
    for (i, x) in rows.iter().take(n).enumerate() {
        if i % 7 < 6 {
            s = mix(s, u64::from(*x));
        }
    }
    s
}

// The sum over the first n numbers, or all.
pub(crate) fn words(rows: &[u32], n: usize, h: u64) -> u64 {
    let mut s = h;
    for x in rows.iter().take(n) {
        s = mix(s, u64::from(*x));
    }
    s
}

// The sum over the first n bytes, or all.
pub(crate) fn bytes(image: &[u8], n: usize, h: u64) -> u64 {
    let mut s = h;
    for x in image.iter().take(n) {
        s = mix(s, u64::from(*x));
    }
    s
}
