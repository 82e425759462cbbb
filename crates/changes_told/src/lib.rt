// What changed between two texts, told in lines: one a row of the list, in the list's order; or a refusal.
#![tactic(auto)]

mod rows;

use change_answer::{Refused, Told, Whose};
use rows::List;
use sink::{Buffer, Sink};

// A refusal, which is told on standard error as well: of a side, or of both under the program's name.
fn refused(s: Sink, out: &mut Buffer, word: &[u8], name: &[u8], r: Refused) -> Sink {
    let number = cells::wide(r.number);
    let s1 = sink::put(s, out, word);
    let s2 = texts::decimal(s1, out, b"refused ", number);
    let s3 = texts::decimal(s2, out, b" at ", r.place);
    let s4 = sink::put(s3, out, b"\n");
    console::tell_refused(s4, out, name, number, r.place)
}

// A refusal, told of the side whose it is.
fn side_refused(s: Sink, out: &mut Buffer, r: Refused) -> Sink {
    match r.whose {
        Whose::Older => refused(s, out, b"older: ", b"older", r),
        Whose::Newer => refused(s, out, b"newer: ", b"newer", r),
        Whose::Both => refused(s, out, b"", b"changes", r),
    }
}

// What the comparison of two texts told.
fn told<'a>(
    s: Sink,
    out: &mut Buffer,
    t: Told,
    list: &List,
    older: &'a [u8],
    newer: &'a [u8],
) -> Sink {
    match t {
        Err(r) => side_refused(s, out, r),
        Ok(0) => sink::put(s, out, b"no change\n"),
        Ok(rows) => rows::tell_rows(s, out, list, rows, older, newer),
    }
}

// What changed between two texts, in the lent list.
fn compare(older: &[u8], newer: &[u8], list: &mut List) -> Told {
    changes_of::changes_of(older, newer, list)
}

// Tells what changed between an older and a newer text.
pub fn tell<'a>(out: &mut Buffer, older: &'a [u8], newer: &'a [u8]) {
    let mut list = [0u32; 1081856];
    let t = compare(older, newer, &mut list);
    let s = told(sink::new(), out, t, &list, older, newer);
    sink::flush(s, out);
}
