// The port's answers about a text, in the sample's numbers: the probe's rows, with a name, content or fragments as one sum.
use crate::Answer;
use crate::sums::{byte_sum, fragment_sum};
use probe_line::Row;

// A row with up to three values, of which a sum may be the third.
fn of_row(r: Row, sum: u64) -> Answer {
    if r.reason != 0 {
        return Answer::default();
    }
    Answer {
        taken: 1,
        used: r.place,
        first: r.first,
        second: r.second,
        third: std::num::wrapping_add_u64(r.third, sum),
        fourth: 0,
        fifth: 0,
    }
}

// Bit 3 of the flags as 1 (absolute), bit 5 as 2 (code), and 4 for a given addr.
fn marks(flags: u64, given: u64) -> u64 {
    flags / 8 % 2 + flags / 32 % 2 * 2 + given % 2 * 4
}

// A line of group one: its name's length and sum, then size, marks and addr of an area, or whether a symbol is outside and its value.
fn of_entry(t: &[u8], r: Row) -> Answer {
    if r.reason != 0 {
        return Answer::default();
    }
    let fourth = if r.kind == 2 {
        marks(r.second, r.third)
    } else {
        r.second
    };
    Answer {
        taken: 1,
        used: r.place,
        first: r.length,
        second: byte_sum(t, r.name as usize, r.length as usize),
        third: r.first,
        fourth,
        fifth: r.fourth,
    }
}

// A T line, which may have to be used whole: its address, the count of its content and its sum.
fn of_content(t: &[u8], radix: u8, big: bool, width: u8, whole: bool) -> Answer {
    let mut bytes = [0u8; 256];
    let r = if whole {
        probe_line::probe_whole(t, radix, big, width, &mut bytes)
    } else {
        probe_line::probe_content(t, radix, big, width, &mut bytes)
    };
    of_row(r, byte_sum(&bytes, 0, r.second as usize))
}

// An R line: its area's index, the count of its fragments and their sum.
fn of_relocation(t: &[u8], radix: u8, big: bool, width: u8) -> Answer {
    let mut modes = [0u32; 64];
    let mut entries = [0u32; 64];
    let mut indexes = [0u32; 64];
    let r = probe_line::probe_relocation(
        t,
        radix,
        big,
        width,
        &mut modes,
        &mut entries,
        &mut indexes,
    );
    of_row(
        r,
        fragment_sum(&modes, &entries, &indexes, r.second as usize),
    )
}

// What a reader of numbers, of the header or of a line that is passed over finds.
fn small(reader: u32, t: &[u8], radix: u8, big: bool, width: u8) -> Row {
    match reader {
        0 => probe_line::probe_number(t, 0, radix),
        1 => probe_line::probe_byte(t, 0, radix),
        2 => probe_line::probe_address(t, 0, radix, big, width),
        3 => probe_line::probe_index(t, 0, radix, big),
        4 => probe_line::probe_mode(t, 0, radix),
        5 => probe_line::probe_header(t),
        6 => probe_line::probe_ignored(t, b"OHM"),
        7 => probe_line::probe_ignored(t, b"T"),
        _ => probe_line::probe_ignored(t, b"P"),
    }
}

// What the reader of a number answers: the readers stand in the sample's order.
pub(crate) fn answer(reader: u32, t: &[u8], radix: u8, big: bool, width: u8) -> Answer {
    match reader {
        0..=8 => of_row(small(reader, t, radix, big, width), 0),
        9 => of_entry(t, probe_line::probe_area(t, radix, big, width)),
        10 => of_entry(t, probe_line::probe_symbol(t, radix, big, width)),
        11 => of_entry(t, probe_line::probe_entry(t, radix, big, width)),
        12 => of_content(t, radix, big, width, false),
        13 => of_content(t, radix, big, width, true),
        _ => of_relocation(t, radix, big, width),
    }
}
