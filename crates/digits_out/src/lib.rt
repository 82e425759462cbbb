// Words, bytes and numbers written into a lent text: capital hex, bytes in two digits behind a blank, numbers in the fewest. Past the end nothing is stored, and the place counts on.
#![tactic(auto)]

ghost use Rattle.std.specs.Prelude.{◌≡◌, [], ◌∷◌, ◌+◌, ◌<◌};
ghost use Rattle.hexadecimal.specs.Hex.{hex_digits};
ghost use Rattle.manual.specs.Digits.{digits_of};
ghost use Rattle.digits_out.specs.Wrote.{capped, HasDigits, Wrote};

// The next place; the largest has none.
fn next(at: usize) -> usize
    ensures { result ≡ capped (at + 1) }
{
    if at < 18446744073709551615 {
        at + 1
    } else {
        at
    }
}

// One byte; the answer is the place behind it.
pub fn put(out: &mut [u8], at: usize, b: u8) -> usize
    ensures { Wrote (b ∷ []) out.old at result out.new }
{
    cells::put(out, at, b);
    next(at)
}

// A word.
pub fn put_word(out: &mut [u8], at: usize, w: &[u8]) -> usize
    ensures { Wrote w.now out.old at result out.new }
{
    let mut p = at;
    for b in w {
        p = put(out, p, *b);
    }
    p
}

// A blank, and a byte in two digits.
pub fn put_byte(out: &mut [u8], at: usize, b: u8) -> usize
    ensures { Wrote (32 ∷ hex_digits 2 b) out.old at result out.new }
{
    let p = put(out, at, b' ');
    put_word(out, p, &hexadecimal::three(b as usize)[1..])
}

// How many digits a number has.
fn width(n: u32) -> usize
    ensures { HasDigits n result }
{
    if n < 0x1_0000 {
        return short_width(n);
    }
    if n < 0x10_0000 {
        return 5;
    }
    if n < 0x100_0000 {
        return 6;
    }
    if n < 0x1000_0000 { 7 } else { 8 }
}

// The same of a number below 2^16.
fn short_width(n: u32) -> usize
    requires { n < 65536 }
    ensures { HasDigits n result }
{
    if n < 0x10 {
        return 1;
    }
    if n < 0x100 {
        return 2;
    }
    if n < 0x1000 { 3 } else { 4 }
}

// A number in the fewest digits.
pub fn put_number(out: &mut [u8], at: usize, n: u32) -> usize
    ensures { Wrote (digits_of 16 1 n) out.old at result out.new }
{
    let k = 8 - width(n);
    put_word(out, at, &hexadecimal::eight(n as usize)[k..])
}
