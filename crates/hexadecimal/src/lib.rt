// Hex of a fixed width in capitals, as the listing writes it.
#![tactic(auto)]

ghost use Rattle.std.specs.Prelude.{◌≡◌, ◌<◌, ◌/◌, ◌%◌, length};
ghost use Rattle.hexadecimal.specs.Hex.{capital, hex_digits, value_and_mask, escaped};

// The digit of a number that is worth this much.
fn digit(n: usize, worth: usize) -> u8
    requires { 0 < worth }
    ensures { result ≡ capital (n / worth % 16) }
{
    let d = n / worth % 16;
    if d < 10 { 48 + d as u8 } else { 55 + d as u8 }
}

// The last three digits of a number.
pub fn three(n: usize) -> [u8; 3]
    ensures value { result ≡ hex_digits 3 n }
    ensures value_2 { 3 ≡ length result }
{
    [digit(n, 256), digit(n, 16), digit(n, 1)]
}

// The last four digits of a number.
pub fn four(n: usize) -> [u8; 4]
    ensures value { result ≡ hex_digits 4 n }
    ensures value_2 { 4 ≡ length result }
{
    [digit(n, 4096), digit(n, 256), digit(n, 16), digit(n, 1)]
}

// The last six digits of a number.
pub fn six(n: usize) -> [u8; 6]
    ensures value { result ≡ hex_digits 6 n }
    ensures value_2 { 6 ≡ length result }
{
    [
        digit(n, 0x10_0000),
        digit(n, 0x1_0000),
        digit(n, 0x1000),
        digit(n, 256),
        digit(n, 16),
        digit(n, 1),
    ]
}

// The last eight digits of a number.
pub fn eight(n: usize) -> [u8; 8]
    ensures value { result ≡ hex_digits 8 n }
    ensures value_2 { 8 ≡ length result }
{
    [
        digit(n, 268435456),
        digit(n, 16777216),
        digit(n, 1048576),
        digit(n, 65536),
        digit(n, 4096),
        digit(n, 256),
        digit(n, 16),
        digit(n, 1),
    ]
}

// A blank, a value, a stroke and a mask.
pub fn value_and_mask(value: usize, mask: usize) -> [u8; 6]
    ensures value { result ≡ value_and_mask value mask }
    ensures value_2 { 6 ≡ length result }
{
    [
        b' ',
        digit(value, 16),
        digit(value, 1),
        b'/',
        digit(mask, 16),
        digit(mask, 1),
    ]
}

// A byte that is not shown as it is: a backslash, an x and two digits.
pub fn escape(byte: usize) -> [u8; 4]
    ensures value { result ≡ escaped byte }
    ensures value_2 { 4 ≡ length result }
{
    [92, b'x', digit(byte, 16), digit(byte, 1)]
}
