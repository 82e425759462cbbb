// The lines of kept areas.
use crate::{Shape, fixup};
use address_arguments::Addresses;
use rooms::{AREA_ROOM, FIXUP_ROOM, SYMBOL_ROOM};
use sink::{Buffer, Sink};

// An area's own line.
fn title(s: Sink, out: &mut Buffer, i: usize, id: usize, address: u64, size: usize) -> Sink {
    let s1 = texts::decimal(s, out, b"area ", i);
    let s2 = texts::decimal(s1, out, b" id ", id);
    let s3 = fixup::address(s2, out, b" at ", address);
    let s4 = texts::decimal(s3, out, b" size ", size);
    sink::put(s4, out, b"\n")
}

// What stands in front of byte i: at every eighth a new row begins with its address.
fn row_start(s: Sink, out: &mut Buffer, address: u64, i: usize) -> Sink {
    if i % 8 != 0 {
        return s;
    }
    let at = target_words::add64(address, i as u64);
    if i == 0 {
        return fixup::address(s, out, b"", at);
    }
    fixup::address(s, out, b"\n", at)
}

// A byte, two digits.
fn byte(s: Sink, out: &mut Buffer, b: u8) -> Sink {
    let shown = hexadecimal::value_and_mask(b as usize, 0);
    sink::put(s, out, sink::first_bytes(&shown, 3))
}

// The rows of an area's bytes.
fn rows(s: Sink, out: &mut Buffer, address: u64, bytes: &[u8]) -> Sink {
    let mut now = s;
    for (i, b) in bytes.iter().enumerate() {
        let begun = row_start(now, out, address, i);
        now = byte(begun, out, *b);
    }
    sink::put(now, out, b"\n")
}

// The lines of area i, if it is kept.
fn area(
    s: Sink,
    out: &mut Buffer,
    text: &[u8],
    shape: Shape,
    i: usize,
    areas: &[u32; AREA_ROOM],
    symbols: &[u32; SYMBOL_ROOM],
    fixups: &[u32; FIXUP_ROOM],
    addresses: &Addresses,
    placed: &[u8],
) -> Sink {
    match kept_areas::area_id(areas, shape.areas, i) {
        None => s,
        Some(id) => {
            let address = fixup::chosen(addresses, id);
            let bytes = kept_areas::area_image(placed, areas, shape.areas, i);
            let s1 = title(s, out, i, id, address, bytes.len());
            let s2 = rows(s1, out, address, bytes);
            fixup::lines(s2, out, text, shape, id, symbols, fixups, addresses, bytes)
        }
    }
}

// The lines of all kept areas, whose bytes are placed one area behind the other.
pub fn lines(
    s: Sink,
    out: &mut Buffer,
    text: &[u8],
    shape: Shape,
    areas: &[u32; AREA_ROOM],
    symbols: &[u32; SYMBOL_ROOM],
    fixups: &[u32; FIXUP_ROOM],
    addresses: &Addresses,
    placed: &[u8],
) -> Sink {
    let mut now = s;
    for i in 0..shape.areas {
        now = area(
            now, out, text, shape, i, areas, symbols, fixups, addresses, placed,
        );
    }
    now
}
