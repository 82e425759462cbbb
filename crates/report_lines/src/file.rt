// A module by its file's name: what is written of it, what standard error is told of it, and the totals with it.
use crate::Tally;
use crate::form::Form;
use crate::module::say;
use console::Room;
use host::{Failure, Host};
use rooms::INPUT_ROOM;
use sink::{Buffer, Sink};
use std::io::Read;
use totals::Totals;

// A refused module adds one to those and nothing else.
fn tally_refused(s: Sink, t: Totals) -> Tally {
    Tally {
        sink: s,
        totals: totals::add(t, totals::refused()),
    }
}

// A file that cannot be read, and why.
fn unread<F: Form>(s: Sink, out: &mut Buffer, t: Totals, name: &[u8], why: Failure) -> Tally {
    let s1 = console::complain(s, out, name, why);
    tally_refused(F::refused(s1, out, name, 26, 0), t)
}

// A text.
fn text_of<F: Form>(s: Sink, out: &mut Buffer, t: Totals, name: &[u8], text: &[u8]) -> Tally {
    match say::<F>(text) {
        Err(refused) => {
            let n = cells::wide(refused.number);
            let s1 = F::refused(s, out, name, n, refused.place);
            tally_refused(console::tell_refused(s1, out, name, n, refused.place), t)
        }
        Ok(read) => {
            let own = read.own;
            let s1 = F::read(s, out, name, own, read.positions);
            let s2 = verdict_words::tell_unless_whole(s1, out, name, own.verdict, own.counted);
            Tally {
                sink: s2,
                totals: totals::add(t, own.totals),
            }
        }
    }
}

// The first n bytes of the room.
fn first<F: Form>(
    s: Sink,
    out: &mut Buffer,
    t: Totals,
    name: &[u8],
    room: &Room,
    n: usize,
) -> Tally {
    text_of::<F>(s, out, t, name, sink::first_bytes(room, n))
}

// A room of zeros: made by itself, so that no proof has them in sight.
fn empty_room() -> Room {
    [0; INPUT_ROOM]
}

// The text that a reader gives.
fn input<F: Form>(
    reader: &mut impl Read,
    s: Sink,
    out: &mut Buffer,
    t: Totals,
    name: &[u8],
) -> Tally {
    let mut room = empty_room();
    match console::fill(reader, &mut room) {
        Err(why) => unread::<F>(s, out, t, name, why),
        Ok(n) => first::<F>(s, out, t, name, &room, n),
    }
}

// The module of a file, shown under a name.
pub fn report_file<F: Form>(
    rt: &impl Host,
    s: Sink,
    out: &mut Buffer,
    t: Totals,
    file: &[u8],
    name: &[u8],
) -> Tally {
    match host::open(rt, file) {
        Ok(mut opened) => input::<F>(&mut opened, s, out, t, name),
        Err(why) => unread::<F>(s, out, t, name, why),
    }
}
