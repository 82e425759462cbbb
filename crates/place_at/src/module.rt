// A module's code at the addresses that the arguments choose.
use address_arguments::Addresses;
use answer::{Answer, Counts, Verdict};
use header::Head;
use placed_code::Placed;
use placed_lines::Shape;
use rooms::{AREA_ROOM, FIXUP_ROOM, IMAGE_ROOM, SYMBOL_ROOM};
use sink::Buffer;
use std::env::Env;

// Where the addresses begin among so many arguments, and whether the bytes alone are asked for.
#[derive(Clone, Copy)]
pub(crate) struct Asked {
    pub from: usize,
    pub count: usize,
    pub raw: bool,
}

// Positions of all images together.
type Image = [u8; IMAGE_ROOM];

// No fixups yet.
fn empty_fixups() -> [u32; FIXUP_ROOM] {
    [0u32; FIXUP_ROOM]
}

// No symbols yet.
fn empty_symbols() -> [u32; SYMBOL_ROOM] {
    [0u32; SYMBOL_ROOM]
}

// No addresses yet.
fn empty_addresses() -> Addresses {
    [0u64; 1088]
}

// A refusal, as the listing has it; where the bytes alone are asked for, on standard error only.
fn refused(number: u32, place: usize, raw: bool) {
    let mut out = io::large_buffer();
    if raw {
        console::tell_number(b"-", cells::wide(number), place);
        return;
    }
    refusal_lines(&mut out, cells::wide(number), place)
}

// The lines of a refusal.
fn refusal_lines(out: &mut Buffer, number: usize, place: usize) {
    let s1 = texts::decimal(sink::new(), out, b"refused ", number);
    let s2 = texts::decimal(s1, out, b" at ", place);
    let s3 = sink::put(s2, out, b"\n");
    console::tell_refused(s3, out, b"-", number, place);
}

// Whether the header's order is big.
fn is_big(text: &[u8]) -> bool {
    match header::format_spec(text) {
        Head::Found { form, next: _ } => form.big,
        _ => false,
    }
}

// Writes the lines of placed bytes.
fn write_lines(
    text: &[u8],
    counts: Counts,
    areas: &[u32; AREA_ROOM],
    symbols: &[u32; SYMBOL_ROOM],
    fixups: &[u32; FIXUP_ROOM],
    addresses: &Addresses,
    placed: &[u8],
) {
    let mut out = io::large_buffer();
    let shape = Shape {
        areas: counts.areas,
        symbols: counts.symbols,
        fixups: counts.fixups,
        big: is_big(text),
    };
    let s = placed_lines::lines(
        sink::new(),
        &mut out,
        text,
        shape,
        areas,
        symbols,
        fixups,
        addresses,
        placed,
    );
    sink::flush(s, &out);
}

// Writes placed bytes.
fn write_bytes(placed: &[u8]) {
    if !io::write_all(host::STDOUT_FILENO, placed) {
        host::tell_failure(b"standard output", host::last_failure());
    }
}

// Writes the first n of the placed bytes, or their lines.
fn write(
    text: &[u8],
    raw: bool,
    counts: Counts,
    areas: &[u32; AREA_ROOM],
    symbols: &[u32; SYMBOL_ROOM],
    fixups: &[u32; FIXUP_ROOM],
    addresses: &Addresses,
    placed: &Image,
    n: usize,
) {
    let bytes = sink::first_bytes(placed, n);
    if raw {
        write_bytes(bytes);
        return;
    }
    write_lines(text, counts, areas, symbols, fixups, addresses, bytes)
}

// The addresses of symbols, behind those of areas.
fn of_symbols(addresses: &[u64]) -> &[u64] {
    addresses.get(64..).unwrap_or(addresses)
}

// A text's code at the addresses.
fn code_at(text: &[u8], addresses: &Addresses, out: &mut Image) -> Placed {
    placed_code::place_code(text, addresses, of_symbols(addresses), out)
}

// Places a module whose tables are at hand.
fn place_read(
    rt: &impl Env,
    text: &[u8],
    asked: Asked,
    counts: Counts,
    areas: &[u32; AREA_ROOM],
    symbols: &[u32; SYMBOL_ROOM],
    fixups: &[u32; FIXUP_ROOM],
) {
    let mut addresses = empty_addresses();
    if !address_arguments::choose(
        rt,
        text,
        symbols,
        counts.symbols,
        counts.kept,
        asked.from,
        asked.count,
        &mut addresses,
    ) {
        return;
    }
    let mut out = io::large_buffer();
    match code_at(text, &addresses, &mut out) {
        Placed::Refusal { number, place } => refused(number, place, asked.raw),
        Placed::Done { bytes } => write(
            text, asked.raw, counts, areas, symbols, fixups, &addresses, &out, bytes,
        ),
    }
}

// The ended reading of a text, for its tables and fixups.
fn read(
    text: &[u8],
    areas: &mut [u32; AREA_ROOM],
    symbols: &mut [u32; SYMBOL_ROOM],
    fixups: &mut [u32; FIXUP_ROOM],
) -> Answer {
    let mut values = io::large_buffer();
    let mut masks = io::large_buffer();
    reading::read_ended(text, areas, symbols, &mut values, &mut masks, fixups)
}

// Places a module.
pub(crate) fn place_text(rt: &impl Env, text: &[u8], asked: Asked) {
    let mut areas = [0u32; AREA_ROOM];
    let mut symbols = empty_symbols();
    let mut fixups = empty_fixups();
    match read(text, &mut areas, &mut symbols, &mut fixups) {
        Err(refusal) => refused(refusal.number, refusal.place, asked.raw),
        Ok(told) => match told.verdict {
            Verdict::Stopped { place } => console::tell_place(b"-", place),
            Verdict::Finished => place_read(
                rt,
                text,
                asked,
                told.counts,
                &areas,
                &symbols,
                &fixups,
            ),
        },
    }
}
