// The row of an area and the row of a symbol, written into lent numbers.
#![tactic(auto)]

ghost use Rattle.std.specs.Prelude.{◌≡◌, [], ◌∷◌, ◌≤◌, ◌+◌};
ghost use Rattle.std.proofs.lemmas.List.Edits.{sets};
ghost use Rattle.format.specs.Rows.{flag, given};
ghost use Rattle.format.specs.Tables.{or_zero};
ghost use Rattle.entry_line.specs.Told.{addr_of};
ghost use Rattle.put_rows.specs.Put.{short_of, area_put, symbol_put};

use cells::put_u32;
use rooms::{AREA_WIDTH, SYMBOL_WIDTH, TEXT_ROOM};

// Three numbers from a place on.
fn put3(out: &mut [u32], i: usize, a: u32, b: u32, c: u32)
    requires { i ≤ 65536 }
    ensures { out.new ≡ sets out.old i (a ∷ b ∷ c ∷ []) }
{
    put_u32(out, i, a);
    put_u32(out, i + 1, b);
    put_u32(out, i + 2, c)
}

// A place, a length or a count of a text, none of which passes 65,536: what does is stored as 65,536.
fn short(n: usize) -> u32
    ensures { result ≡ short_of n }
{
    if n <= TEXT_ROOM { n as u32 } else { 65536 }
}

// The place and the length of a name that stands in a line at p, and a number behind them.
fn put_named(out: &mut [u32], i: usize, p: usize, name: usize, len: usize, next: u32)
    requires { i ≤ 65536 }
    ensures { out.new ≡ sets out.old i ((short_of p + short_of name) ∷ short_of len ∷ next ∷ []) }
{
    put3(out, i, short(p) + short(name), short(len), next)
}

// 1 for true.
fn flag_of(b: bool) -> u32
    ensures { result ≡ flag b }
{
    if b { 1 } else { 0 }
}

// 1 for an addr that is given.
fn is_given(a: Option<u32>) -> u32
    ensures { result ≡ given (addr_of a) }
{
    match a {
        Some(_) => 1,
        None => 0,
    }
}

// The addr, or 0 where none is given.
fn or_zero(a: Option<u32>) -> u32
    ensures { result ≡ or_zero (addr_of a) }
{
    match a {
        Some(addr) => addr,
        None => 0,
    }
}

// The row of an area whose name stands in a line at p; nothing is known of it yet. There is no 65th row.
pub fn put_area(
    out: &mut [u32],
    row: usize,
    p: usize,
    name: usize,
    len: usize,
    size: u32,
    flags: u32,
    addr: Option<u32>,
)
    ensures { out.new ≡ area_put out.old row p name len size flags (addr_of addr) }
{
    if 64 <= row {
        return;
    }
    let i = AREA_WIDTH * row;
    put_named(out, i, p, name, len, size);
    put3(out, i + 3, flags, is_given(addr), or_zero(addr));
    put_u32(out, i + 6, 0)
}

// The row of a symbol whose name stands in a line at p; area counts from 1, 0 is none. There is no 1,025th row.
pub fn put_symbol(
    out: &mut [u32],
    row: usize,
    p: usize,
    name: usize,
    len: usize,
    is_ref: bool,
    value: u32,
    area: usize,
)
    ensures { out.new ≡ symbol_put out.old row p name len is_ref value area }
{
    if 1024 <= row {
        return;
    }
    let i = SYMBOL_WIDTH * row;
    put_named(out, i, p, name, len, flag_of(is_ref));
    put_u32(out, i + 3, value);
    put_u32(out, i + 4, short(area))
}
