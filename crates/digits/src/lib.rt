// Digits: what a byte is worth as one, and a byte of two capital digits of radix 16, as modules have them, read without a loop.
#![tactic(auto)]

ghost use Rattle.std.specs.Prelude.{◌≡◌};
ghost use Rattle.format.specs.Bytes.{worth};
ghost use Rattle.digits.specs.Capitals.{Hex, capitals};

// What a byte is worth as a digit: 0 to 15, or 255 where it is none.
pub fn worth_of(b: u8) -> u64
    ensures { result ≡ worth b }
{
    let x = b as u64;
    if x < 48 {
        return 255;
    }
    if x <= 57 {
        return x - 48;
    }
    if x < 65 {
        return 255;
    }
    if x <= 70 {
        return x - 55;
    }
    if x < 97 {
        return 255;
    }
    if x <= 102 {
        return x - 87;
    }
    255
}

// What a byte is worth as a capital digit of radix 16, or a number above 15 where it is none.
pub fn hex_of(b: u8) -> u64
    ensures { Hex b result }
{
    let x = b as u64;
    if x < 58 {
        return std::num::wrapping_sub_u64(x, 48);
    }
    if x < 65 {
        return x;
    }
    x - 55
}

// What two bytes are worth as capital digits of radix 16, or 256 where one of them is none.
pub fn two_capitals(a: u8, b: u8) -> u64
    ensures { result ≡ capitals a b }
{
    let d = hex_of(a);
    let e = hex_of(b);
    if 15 < d {
        return 256;
    }
    if 15 < e {
        return 256;
    }
    d * 16 + e
}
