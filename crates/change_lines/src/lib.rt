// The rows of a list of changes, a line each.
#![tactic(auto)]

mod line;
mod row;

use change_rows::{Row, VALUE_DIFFERS};
use rooms::{FIXUP_ROOM, SYMBOL_ROOM};
use sink::{Buffer, Sink};

// The line of a row.
fn row_line<'a>(
    s: Sink,
    out: &mut Buffer,
    row: Row,
    older: &'a [u8],
    f: &[u32; SYMBOL_ROOM],
    xs: &[u32; FIXUP_ROOM],
    newer: &'a [u8],
    g: &[u32; SYMBOL_ROOM],
    ys: &[u32; FIXUP_ROOM],
) -> Sink {
    if row.kind < VALUE_DIFFERS {
        return line::area_line(s, out, row, older, xs, newer, ys);
    }
    line::symbol_line(s, out, row, older, f, newer, g)
}

// The lines of n rows of a list: the older text has the symbols f and fixups xs, the newer g and ys.
pub fn lines<'a>(
    s: Sink,
    out: &mut Buffer,
    list: &[u32],
    n: usize,
    older: &'a [u8],
    f: &[u32; SYMBOL_ROOM],
    xs: &[u32; FIXUP_ROOM],
    newer: &'a [u8],
    g: &[u32; SYMBOL_ROOM],
    ys: &[u32; FIXUP_ROOM],
) -> Sink {
    let mut now = s;
    for i in 0..n {
        now = row_line(now, out, row::row_at(list, i), older, f, xs, newer, g, ys);
    }
    now
}
