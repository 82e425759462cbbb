// The lines of symbols.
use sink::{Buffer, Sink};

// Symbol j's line.
fn line(s: Sink, out: &mut Buffer, text: &[u8], symbols: &[u32], j: usize) -> Sink {
    let s1 = sink::put(s, out, b"sym ");
    let s2 = texts::name(s1, out, symbol_rows::symbol_name(text, symbols, j));
    let s3 = texts::hex8(
        s2,
        out,
        b" ",
        cells::wide(symbol_rows::symbol_value(symbols, j)),
    );
    sink::put(s3, out, b"\n")
}

// The lines of the symbols of an area, by its index, among n symbols, in the text's order.
pub(crate) fn lines(
    s: Sink,
    out: &mut Buffer,
    text: &[u8],
    symbols: &[u32],
    n: usize,
    area: usize,
) -> Sink {
    let range = symbol_rows::area_symbols(symbols, n, area);
    let mut now = s;
    for j in range.start..range.end {
        now = line(now, out, text, symbols, j);
    }
    now
}
