// The lines of kept areas.
use crate::{fixup, symbol};
use answer::Counts;
use rooms::{AREA_ROOM, FIXUP_ROOM, IMAGE_ROOM, SYMBOL_ROOM};
use sink::{Buffer, Sink};

// A kept area's own line.
fn title(s: Sink, out: &mut Buffer, areas: &[u32], n: usize, i: usize) -> Sink {
    let s1 = texts::decimal(s, out, b"area ", i);
    let s2 = area_line::id(s1, out, areas, n, i);
    let s3 = area_line::kind(s2, out, areas, i);
    let s4 = texts::decimal(
        s3,
        out,
        b" size ",
        cells::wide(area_rows::area_size(areas, i)),
    );
    sink::put(s4, out, b"\n")
}

// What stands in front of a position: at every eighth a new row begins with its number.
fn row_start(s: Sink, out: &mut Buffer, position: usize) -> Sink {
    if position % 8 != 0 {
        return s;
    }
    if position == 0 {
        return texts::hex4(s, out, b"", position);
    }
    texts::hex4(s, out, b"\n", position)
}

// The rows of an area's image: eight positions a row, each its value and its mask.
fn image(s: Sink, out: &mut Buffer, values: &[u8], masks: &[u8]) -> Sink {
    let mut now = s;
    for i in 0..values.len() {
        let begun = row_start(now, out, i);
        now = area_line::position(begun, out, values, masks, i);
    }
    sink::put(now, out, b"\n")
}

// A kept area's own line and its rows.
fn code(
    s: Sink,
    out: &mut Buffer,
    areas: &[u32],
    n: usize,
    i: usize,
    values: &[u8],
    masks: &[u8],
) -> Sink {
    let s1 = title(s, out, areas, n, i);
    let values = kept_areas::area_image(values, areas, n, i);
    let masks = kept_areas::area_image(masks, areas, n, i);
    image(s1, out, values, masks)
}

// The lines of area i, if it is kept.
fn area(
    s: Sink,
    out: &mut Buffer,
    text: &[u8],
    counts: Counts,
    i: usize,
    areas: &[u32],
    symbols: &[u32],
    values: &[u8],
    masks: &[u8],
    fixups: &[u32],
) -> Sink {
    match kept_areas::area_id(areas, counts.areas, i) {
        None => s,
        Some(id) => {
            let s1 = code(s, out, areas, counts.areas, i, values, masks);
            let s2 = symbol::lines(s1, out, text, symbols, counts.symbols, i);
            fixup::lines(s2, out, text, fixups, counts.fixups, id)
        }
    }
}

// The lines of all kept areas.
pub fn area_lines(
    s: Sink,
    out: &mut Buffer,
    text: &[u8],
    counts: Counts,
    areas: &[u32; AREA_ROOM],
    symbols: &[u32; SYMBOL_ROOM],
    values: &[u8; IMAGE_ROOM],
    masks: &[u8; IMAGE_ROOM],
    fixups: &[u32; FIXUP_ROOM],
) -> Sink {
    let mut now = s;
    for i in 0..counts.areas {
        now = area(
            now, out, text, counts, i, areas, symbols, values, masks, fixups,
        );
    }
    now
}
