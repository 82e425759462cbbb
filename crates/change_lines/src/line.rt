// The line of a row.
use cells::wide;
use change_rows::{
    AREA_ONLY_NEW, AREA_ONLY_OLD, FIXUP_ONLY_NEW, FIXUP_ONLY_OLD, POSITION_ONLY_NEW,
    POSITION_ONLY_OLD, Row, SYMBOL_ONLY_NEW, SYMBOL_ONLY_OLD,
};
use fixup_rows::{fixup_at, fixup_name};
use sink::{Buffer, Sink};
use symbol_rows::symbol_value;

// A side's value and mask, or that it has none.
fn side(s: Sink, out: &mut Buffer, there: bool, value: u32, mask: u32) -> Sink {
    if there {
        return sink::put(
            s,
            out,
            &hexadecimal::value_and_mask(wide(value), wide(mask)),
        );
    }
    sink::put(s, out, b" none")
}

// A position of both sides or of one.
fn position(s: Sink, out: &mut Buffer, row: Row) -> Sink {
    let s1 = texts::decimal(s, out, b"area ", wide(row.id));
    let s2 = texts::hex4(s1, out, b" position ", wide(row.first));
    let old = row.kind != POSITION_ONLY_NEW;
    let s3 = side(s2, out, old, row.second, row.third);
    let s4 = sink::put(s3, out, b" ->");
    let new = row.kind != POSITION_ONLY_OLD;
    let s5 = side(s4, out, new, row.fourth, row.fifth);
    sink::put(s5, out, b"\n")
}

// An area of one side.
fn area(s: Sink, out: &mut Buffer, id: u32, word: &[u8]) -> Sink {
    let s1 = texts::decimal(s, out, b"area ", wide(id));
    sink::put(s1, out, word)
}

// A fixup of one side, out of its rows.
fn fixup(s: Sink, out: &mut Buffer, row: Row, word: &[u8], text: &[u8], fixups: &[u32]) -> Sink {
    let s1 = area(s, out, row.id, word);
    let i = wide(row.first);
    fixup_line::line(s1, out, fixup_at(fixups, i), fixup_name(text, fixups, i))
}

// A row of an area.
pub(crate) fn area_line(
    s: Sink,
    out: &mut Buffer,
    row: Row,
    older: &[u8],
    olds: &[u32],
    newer: &[u8],
    news: &[u32],
) -> Sink {
    let kind = row.kind;
    match kind {
        FIXUP_ONLY_OLD => fixup(s, out, row, b" older ", older, olds),
        FIXUP_ONLY_NEW => fixup(s, out, row, b" newer ", newer, news),
        AREA_ONLY_OLD => area(s, out, row.id, b" only in older\n"),
        AREA_ONLY_NEW => area(s, out, row.id, b" only in newer\n"),
        _ => position(s, out, row),
    }
}

// A symbol's value on a side, or that it has none.
fn value(s: Sink, out: &mut Buffer, word: &[u8], there: bool, symbols: &[u32], i: u32) -> Sink {
    if there {
        return texts::hex8(s, out, word, wide(symbol_value(symbols, wide(i))));
    }
    let s1 = sink::put(s, out, word);
    sink::put(s1, out, b"none")
}

// A row of a symbol. The texts have one lifetime, at which its name is handed back.
pub(crate) fn symbol_line<'a>(
    s: Sink,
    out: &mut Buffer,
    row: Row,
    older: &'a [u8],
    olds: &[u32],
    newer: &'a [u8],
    news: &[u32],
) -> Sink {
    let i = row.first;
    let j = row.second;
    let name = changed_name::name_of(older, newer, olds, news, row.kind, wide(i), wide(j));
    let s1 = sink::put(s, out, b"symbol ");
    let s2 = texts::name(s1, out, name);
    let s3 = value(s2, out, b" ", row.kind != SYMBOL_ONLY_NEW, olds, i);
    let s4 = value(s3, out, b" -> ", row.kind != SYMBOL_ONLY_OLD, news, j);
    sink::put(s4, out, b"\n")
}
