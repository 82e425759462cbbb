// The line of a fixup, as a listing has it.
#![tactic(auto)]

use fixup_rows::Fixup;
use sink::{Buffer, Sink};

// Where a fixup lies, how many bytes it takes, and its mode.
fn place(s: Sink, out: &mut Buffer, f: Fixup) -> Sink {
    let s1 = texts::hex4(s, out, b"fix ", cells::wide(f.position));
    let s2 = texts::decimal(s1, out, b" ", cells::wide(f.size));
    texts::hex3(s2, out, b" mode ", cells::wide(f.mode))
}

// What a fixup refers to: an outside symbol by its name, or a kept area by its id.
fn reference(s: Sink, out: &mut Buffer, f: Fixup, name: &[u8]) -> Sink {
    if f.outside == 1 {
        let t = sink::put(s, out, b" pub ");
        return texts::name(t, out, name);
    }
    texts::decimal(s, out, b" area ", cells::wide(f.what))
}

// A fixup's line; the name is that of the outside symbol that it refers to.
pub fn line(s: Sink, out: &mut Buffer, f: Fixup, name: &[u8]) -> Sink {
    let s1 = place(s, out, f);
    let s2 = reference(s1, out, f, name);
    let s3 = texts::hex8(s2, out, b" ", cells::wide(f.value));
    let s4 = texts::hex6(s3, out, b" offset ", cells::wide(f.number));
    sink::put(s4, out, b"\n")
}
