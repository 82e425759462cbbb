// Bytes, numbers of several bytes and T lines written into a lent text.
#![tactic(auto)]

ghost use Rattle.std.specs.Prelude.{◌≡◌, [], ◌∷◌, ◌/◌, ◌%◌};
ghost use Rattle.written.specs.Shapes.{hex_bytes};
ghost use Rattle.header.specs.Told.{form_of};
ghost use Rattle.digits_out.specs.Wrote.{Wrote};
ghost use Rattle.content_out.specs.ContentOut.{content_out, low_bytes};

use digits_out::{put, put_byte};
use header::{Form, Width};

// Bytes, each behind a blank.
pub fn put_bytes(out: &mut [u8], at: usize, bytes: &[u8]) -> usize
    ensures { Wrote (hex_bytes bytes.now) out.old at result out.new }
{
    let mut p = at;
    for b in bytes {
        p = put_byte(out, p, *b);
    }
    p
}

// The lowest byte.
fn low(n: u32) -> u8
    ensures { result ≡ n % 256 }
{
    (n % 256) as u8
}

// The two low bytes of a number, in an order.
pub fn put_two(out: &mut [u8], at: usize, big: bool, n: u32) -> usize
    ensures { Wrote (hex_bytes (low_bytes big 2 n)) out.old at result out.new }
{
    if big {
        return put_bytes(out, at, &[low(n / 256), low(n)]);
    }
    put_bytes(out, at, &[low(n), low(n / 256)])
}

// The three low bytes.
fn put_three(out: &mut [u8], at: usize, big: bool, n: u32) -> usize
    ensures { Wrote (hex_bytes (low_bytes big 3 n)) out.old at result out.new }
{
    if big {
        return put_bytes(out, at, &[low(n / 65536), low(n / 256), low(n)]);
    }
    put_bytes(out, at, &[low(n), low(n / 256), low(n / 65536)])
}

// All four bytes.
fn put_four(out: &mut [u8], at: usize, big: bool, n: u32) -> usize
    ensures { Wrote (hex_bytes (low_bytes big 4 n)) out.old at result out.new }
{
    if big {
        return put_bytes(
            out,
            at,
            &[low(n / 16777216), low(n / 65536), low(n / 256), low(n)],
        );
    }
    put_bytes(
        out,
        at,
        &[low(n), low(n / 256), low(n / 65536), low(n / 16777216)],
    )
}

// An address of as many bytes as the header says.
pub fn put_address(out: &mut [u8], at: usize, form: Form, n: u32) -> usize
    ensures { Wrote (hex_bytes (low_bytes form.big (form_of form).address_length n)) out.old at result out.new }
{
    let w = form.width;
    match w {
        Width::Two => put_two(out, at, form.big, n),
        Width::Three => put_three(out, at, form.big, n),
        Width::Four => put_four(out, at, form.big, n),
    }
}

// T, the address, the content, and LF.
pub fn put_content(out: &mut [u8], at: usize, form: Form, address: u32, content: &[u8]) -> usize
    ensures { Wrote (content_out form.big (form_of form).address_length address content.now) out.old at result out.new }
{
    let p = put(out, at, b'T');
    let q = put_address(out, p, form, address);
    let r = put_bytes(out, q, content);
    put(out, r, b'\n')
}
