// The names, one after the other.
use host::{Failure, Host};
use name_lines::{Block, Cursor, Line, Name};
use report_lines::{Lines, Tally};
use sink::{Buffer, Sink};
use std::io::Read;
use std::ops::ControlFlow;
use totals::Totals;

// What waits to be written and the totals, where the input is, how many names were taken, whether each has a second line, and whether a page is asked for.
#[derive(Clone, Copy)]
struct Going {
    tally: Tally,
    cursor: Cursor,
    names: u64,
    pairs: bool,
    page: bool,
}

// How it goes on: with the next line, or not.
type Turn = ControlFlow<Tally, Going>;

// What is written of one file: a line, or a row of the page.
fn told(
    rt: &impl Host,
    page: bool,
    s: Sink,
    out: &mut Buffer,
    t: Totals,
    file: &[u8],
    shown: &[u8],
) -> Tally {
    if page {
        return page_file::page_file(rt, s, out, t, file, shown);
    }
    report_lines::report_file::<Lines>(rt, s, out, t, file, shown)
}

// One name more, shown under its own or another one, unless there are too many.
fn one(
    rt: &impl Host,
    g: Going,
    out: &mut Buffer,
    file: &[u8],
    shown: &[u8],
    next: Cursor,
) -> Turn {
    let s = g.tally.sink;
    let t = g.tally.totals;
    if !totals::takes_more(g.names) {
        return ControlFlow::Break(too_many(g.page, s, t, out));
    }
    ControlFlow::Continue(Going {
        tally: told(rt, g.page, s, out, t, file, shown),
        cursor: next,
        names: g.names + 1,
        ..g
    })
}

// The totals as they stood, behind 17.
fn too_many(page: bool, s: Sink, t: Totals, out: &mut Buffer) -> Tally {
    Tally {
        sink: over(page, s, out),
        totals: t,
    }
}

// 17, as a line or in the page; standard error is told too.
fn over(page: bool, s: Sink, out: &mut Buffer) -> Sink {
    if page {
        let u = page_row::over_row(s, out);
        return console::tell(u, out, b"standard input", b"refused 17 at 0");
    }
    report_lines::over(s, out)
}

// A file, shown under how a name begins that is longer than a file's name can be.
fn long(
    rt: &impl Host,
    g: Going,
    out: &mut Buffer,
    file: &[u8],
    name: &Name,
    next: Cursor,
) -> Turn {
    let mut shown = [b'.'; 62];
    shown[..60].copy_from_slice(&name[..60]);
    one(rt, g, out, file, &shown, next)
}

// A file whose name is too long.
fn long_name(rt: &impl Host, g: Going, out: &mut Buffer, name: &Name, next: Cursor) -> Turn {
    long(rt, g, out, name, name, next)
}

// Standard input cannot be read, which the page tells too.
fn failed(page: bool, tally: Tally, out: &mut Buffer, why: Failure) -> Tally {
    let s = console::complain(tally.sink, out, b"standard input", why);
    Tally {
        sink: if page {
            page_row::failed_row(s, out)
        } else {
            s
        },
        totals: tally.totals,
    }
}

// A file that the second line says how to show; an empty one says nothing.
fn second(
    rt: &impl Host,
    reader: &mut impl Read,
    g: Going,
    out: &mut Buffer,
    block: &mut Block,
    file: &[u8],
    next: Cursor,
) -> Turn {
    let mut shown = [0u8; 4096];
    match name_lines::next_line(reader, block, &mut shown, next) {
        Line::Name { length, next } => {
            one(rt, g, out, file, sink::first_bytes(&shown, length), next)
        }
        Line::Long { next } => long(rt, g, out, file, &shown, next),
        Line::Empty { next } => one(rt, g, out, file, file, next),
        Line::End => one(rt, g, out, file, file, next),
        Line::Failed(why) => ControlFlow::Break(failed(g.page, g.tally, out, why)),
    }
}

// A file of n bytes' name.
fn file_of(
    rt: &impl Host,
    reader: &mut impl Read,
    g: Going,
    out: &mut Buffer,
    block: &mut Block,
    name: &Name,
    n: usize,
    next: Cursor,
) -> Turn {
    let file = sink::first_bytes(name, n);
    if g.pairs {
        return second(rt, reader, g, out, block, file, next);
    }
    one(rt, g, out, file, file, next)
}

// The next line.
fn next_turn(
    rt: &impl Host,
    reader: &mut impl Read,
    g: Going,
    out: &mut Buffer,
    block: &mut Block,
    name: &mut Name,
) -> Turn {
    if g.tally.sink.broken {
        return ControlFlow::Break(g.tally);
    }
    match name_lines::next_line(reader, block, name, g.cursor) {
        Line::Name { length, next } => file_of(rt, reader, g, out, block, name, length, next),
        Line::Long { next } => long_name(rt, g, out, name, next),
        Line::Empty { next } => ControlFlow::Continue(Going { cursor: next, ..g }),
        Line::End => ControlFlow::Break(g.tally),
        Line::Failed(why) => ControlFlow::Break(failed(g.page, g.tally, out, why)),
    }
}

// All lines. The count of turns, which no input uses up, is there since a proved loop has to end.
fn all(
    rt: &impl Host,
    reader: &mut impl Read,
    g: Going,
    out: &mut Buffer,
    block: &mut Block,
    name: &mut Name,
) -> Tally {
    let mut now = g;
    for _ in 0..u64::MAX {
        match next_turn(rt, reader, now, out, block, name) {
            ControlFlow::Continue(next) => now = next,
            ControlFlow::Break(tally) => return tally,
        }
    }
    now.tally
}

// A block of zeros: made by itself, so that no proof has them in sight.
fn empty_block() -> Block {
    [0; 65536]
}

// What the lines of standard input name, and the totals then.
pub(crate) fn named(rt: &impl Host, s: Sink, out: &mut Buffer, pairs: bool, page: bool) -> Tally {
    let mut block = empty_block();
    let mut name = [0u8; 4096];
    let tally = Tally {
        sink: s,
        totals: totals::none(),
    };
    let g = Going {
        tally: tally,
        cursor: name_lines::start(),
        names: 0,
        pairs: pairs,
        page: page,
    };
    all(rt, &mut rt.reader(), g, out, &mut block, &mut name)
}
