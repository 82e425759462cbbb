// The ended reading's verdict in words, as a listing has it and as standard error is told of a module that is not whole.
#![tactic(auto)]

use counts_of::Counted;
use ended_answer::Verdict;
use sink::{Buffer, Sink};

// Whether a byte is left, where, and why.
fn stop_words(s: Sink, out: &mut Buffer, verdict: Verdict) -> Sink {
    match verdict {
        Verdict::Finished => sink::put(s, out, b"finished"),
        Verdict::Stopped {
            place,
            reason,
            halt: _,
        } => {
            let t = texts::decimal(s, out, b"stopped at ", place);
            texts::decimal(t, out, b" reason ", reason as usize)
        }
    }
}

// The verdict, and whether the H line tells other counts.
pub fn words(s: Sink, out: &mut Buffer, verdict: Verdict, counted: Counted) -> Sink {
    let t = stop_words(s, out, verdict);
    match counted {
        Counted::NotEqual => sink::put(t, out, b" not equal"),
        _ => t,
    }
}

// Whether a module is whole: finished, and its counts not told otherwise.
fn is_whole(verdict: Verdict, counted: Counted) -> bool {
    matches!(verdict, Verdict::Finished) && !matches!(counted, Counted::NotEqual)
}

// Tells the words that wait in a buffer of their own.
fn tell(s: Sink, out: &Buffer, name: &[u8], waits: Sink, line: &Buffer) -> Sink {
    console::tell(s, out, name, sink::first_bytes(line, waits.used))
}

// Tells on standard error what the words say of a module that is not whole.
pub fn tell_unless_whole(
    s: Sink,
    out: &Buffer,
    name: &[u8],
    verdict: Verdict,
    counted: Counted,
) -> Sink {
    if is_whole(verdict, counted) {
        return s;
    }
    let mut line = io::large_buffer();
    let w = words(sink::new(), &mut line, verdict, counted);
    tell(s, out, name, w, &line)
}
