// The lines of fixups.
use crate::Shape;
use address_arguments::Addresses;
use fixup_rows::Fixup;
use rooms::{FIXUP_ROOM, SYMBOL_ROOM};
use sink::{Buffer, Sink};
use target_asked::Refusal;
use target_words::add64;

// A word and an address, in sixteen digits.
pub(crate) fn address(s: Sink, out: &mut Buffer, word: &[u8], a: u64) -> Sink {
    let t = texts::hex8(s, out, word, (a / 4294967296) as usize);
    texts::hex8(t, out, b"", (a % 4294967296) as usize)
}

// The address at a place of the table, or 0 past its end.
pub(crate) fn chosen(addresses: &Addresses, i: usize) -> u64 {
    if i < 1088 { addresses[i] } else { 0 }
}

// The address that a fixup refers to: of an outside symbol by its name, which all symbols of this name share, or of a kept area by its id; and the value added.
fn referred(
    f: Fixup,
    name: &[u8],
    text: &[u8],
    n: usize,
    symbols: &[u32],
    addresses: &Addresses,
) -> u64 {
    let value = target_words::wide(f.value);
    if f.outside == 1 {
        let j = name_index::first_named(name, text, symbols, n, &[0]);
        return add64(chosen(addresses, sink::end_of(64, j, 1088)), value);
    }
    add64(chosen(addresses, cells::wide(f.what)), value)
}

// Where the bytes of a fixup at an address lead; of one that runs past its area the refusal.
fn leads(s: Sink, out: &mut Buffer, f: Fixup, big: bool, at: u64, bytes: &[u8]) -> Sink {
    let site = row_parts::part(bytes, cells::wide(f.position), cells::wide(f.size));
    match corrected::corrected_target(f.mode, big, f.number, at, site) {
        Ok(t) => address(s, out, b" target ", t),
        Err(Refusal { number, place: _ }) => texts::decimal(
            s,
            out,
            b" target refused ",
            cells::wide(number),
        ),
    }
}

// A fixup's line: its own address, its bytes, what it refers to and where it leads.
fn line(s: Sink, out: &mut Buffer, f: Fixup, big: bool, home: u64, to: u64, bytes: &[u8]) -> Sink {
    let at = add64(home, target_words::wide(f.position));
    let s1 = address(s, out, b"fix ", at);
    let s2 = texts::decimal(s1, out, b" ", cells::wide(f.size));
    let s3 = address(s2, out, b" refers ", to);
    let s4 = leads(s3, out, f, big, at, bytes);
    sink::put(s4, out, b"\n")
}

// The line of fixup j, of the area at an address with these bytes.
fn row(
    s: Sink,
    out: &mut Buffer,
    text: &[u8],
    shape: Shape,
    j: usize,
    home: u64,
    symbols: &[u32],
    fixups: &[u32],
    addresses: &Addresses,
    bytes: &[u8],
) -> Sink {
    let f = fixup_rows::fixup_at(fixups, j);
    let name = fixup_rows::fixup_name(text, fixups, j);
    let to = referred(f, name, text, shape.symbols, symbols, addresses);
    line(s, out, f, shape.big, home, to, bytes)
}

// The lines of the fixups of the area of an id, with its placed bytes.
pub(crate) fn lines(
    s: Sink,
    out: &mut Buffer,
    text: &[u8],
    shape: Shape,
    id: usize,
    symbols: &[u32; SYMBOL_ROOM],
    fixups: &[u32; FIXUP_ROOM],
    addresses: &Addresses,
    bytes: &[u8],
) -> Sink {
    let range = fixup_rows::area_fixups(fixups, shape.fixups, id);
    let home = chosen(addresses, id);
    let mut now = s;
    for j in range.start..range.end {
        now = row(
            now, out, text, shape, j, home, symbols, fixups, addresses, bytes,
        );
    }
    now
}
