// A fixup's line on standard output.
use fixup_rows::Fixup;

// Writes the line of a fixup behind the entry of a pattern book that it lies in, and answers whether it was written.
pub(crate) fn line(name: &[u8], text: &[u8], f: Fixup) -> bool {
    let mut out = io::large_buffer();
    let s1 = texts::name(sink::new(), &mut out, name);
    let s2 = texts::decimal(s1, &mut out, b":", cells::wide(f.home));
    let s3 = sink::put(s2, &mut out, b" ");
    let symbol = row_parts::part(text, cells::wide(f.what), cells::wide(f.length));
    let s4 = fixup_line::line(s3, &mut out, f, symbol);
    let s5 = sink::flush(s4, &out);
    !s5.broken
}
