// A and S lines written into a lent text, each with its LF.
#![tactic(auto)]

ghost use Rattle.std.specs.Prelude.{◌++◌};
ghost use Rattle.manual.specs.Digits.{digits_of};
ghost use Rattle.digits_out.specs.Wrote.{Wrote};
ghost use Rattle.entry_out.specs.EntryOut.{addr_part, area_out, given_addr, kind_part, symbol_out};

use digits_out::{put, put_number, put_word};

// The numbers of an area, and its addr if it is given.
#[derive(Clone, Copy)]
pub struct AreaNumbers {
    pub size: u32,
    pub flags: u32,
    pub addr: Option<u32>,
}

// Two words.
fn put_both(out: &mut [u8], at: usize, v: &[u8], w: &[u8]) -> usize
    ensures { Wrote (v.now ++ w.now) out.old at result out.new }
{
    let p = put_word(out, at, v);
    put_word(out, p, w)
}

// A word and a number.
fn put_field(out: &mut [u8], at: usize, w: &[u8], n: u32) -> usize
    ensures { Wrote (w.now ++ digits_of 16 1 n) out.old at result out.new }
{
    let p = put_word(out, at, w);
    put_number(out, p, n)
}

// addr N, if it is given.
fn put_addr(out: &mut [u8], at: usize, addr: Option<u32>) -> usize
    ensures { Wrote (addr_part addr) out.old at result out.new }
{
    match addr {
        Some(n) => put_field(out, at, b" addr ", n),
        None => at,
    }
}

// Ref or Def, and the value.
fn put_value(out: &mut [u8], at: usize, is_ref: bool, n: u32) -> usize
    ensures { Wrote (kind_part is_ref ++ digits_of 16 1 n) out.old at result out.new }
{
    if is_ref {
        return put_field(out, at, b" Ref", n);
    }
    put_field(out, at, b" Def", n)
}

// A name size N flags N, addr N if it is given, and LF.
pub fn put_area(out: &mut [u8], at: usize, name: &[u8], n: AreaNumbers) -> usize
    ensures { Wrote (area_out name.now n.size n.flags (given_addr n.addr)) out.old at result out.new }
{
    let p = put_both(out, at, b"A ", name);
    let q = put_field(out, p, b" size ", n.size);
    let r = put_field(out, q, b" flags ", n.flags);
    let s = put_addr(out, r, n.addr);
    put(out, s, b'\n')
}

// S name RefN or DefN, and LF.
pub fn put_symbol(out: &mut [u8], at: usize, name: &[u8], is_ref: bool, value: u32) -> usize
    ensures { Wrote (symbol_out name.now is_ref value) out.old at result out.new }
{
    let p = put_both(out, at, b"S ", name);
    let q = put_value(out, p, is_ref, value);
    put(out, q, b'\n')
}
