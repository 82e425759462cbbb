// The listing of one module's text.
use crate::how::How;
use answer::Counts;
use counts_of::Counted;
use ended_answer::Verdict;
use listed_lines::{area_lines, ending_line, refusal_line, summary, why_refused, why_stopped};
use rooms::{AREA_ROOM, FIXUP_ROOM, IMAGE_ROOM, SYMBOL_ROOM};
use sink::{Buffer, Sink};

// What a reading gave: a refusal; or the counts, and the ended reading's verdict with the H line's word, or the place where the
// plain reading ended.
#[derive(Clone, Copy)]
enum Given {
    Refused {
        number: u32,
        place: usize,
    },
    Ended {
        counts: Counts,
        verdict: Verdict,
        counted: Counted,
    },
    Plain {
        counts: Counts,
        place: usize,
    },
}

// A refusal, which is told on standard error as well.
fn refusal(
    how: How,
    s: Sink,
    out: &mut Buffer,
    text: &[u8],
    name: &[u8],
    number: u32,
    place: usize,
) -> Sink {
    let s1 = refusal_line(s, out, cells::wide(number), place);
    let s2 = if how.why {
        why_refused(s1, out, text, number, place)
    } else {
        s1
    };
    console::tell_refused(s2, out, name, cells::wide(number), place)
}

// The line at which the reading stopped, where it is asked for.
fn halted(how: How, s: Sink, out: &mut Buffer, text: &[u8], verdict: Verdict) -> Sink {
    if !how.why {
        return s;
    }
    match verdict {
        Verdict::Finished => s,
        Verdict::Stopped {
            place: _,
            reason,
            halt,
        } => why_stopped(s, out, text, reason, halt),
    }
}

// What the ended reading gave.
fn of_ended(answer: ended_answer::Answer) -> Given {
    match answer {
        ended_answer::Answer::Refusal { number, place } => Given::Refused {
            number: number,
            place: place,
        },
        ended_answer::Answer::Accepted {
            counts,
            verdict,
            counted,
        } => Given::Ended {
            counts: counts,
            verdict: verdict,
            counted: counted,
        },
    }
}

// Where a plain reading of n bytes ended.
fn place_of(verdict: answer::Verdict, n: usize) -> usize {
    match verdict {
        answer::Verdict::Finished => n,
        answer::Verdict::Stopped { place } => place,
    }
}

// What the plain reading of n bytes gave.
fn of_plain(answer: answer::Answer, n: usize) -> Given {
    match answer {
        Err(refusal) => Given::Refused {
            number: refusal.number,
            place: refusal.place,
        },
        Ok(told) => Given::Plain {
            counts: told.counts,
            place: place_of(told.verdict, n),
        },
    }
}

// What the ended or the plain reading gives of a text, and its rows.
fn read(
    ended: bool,
    text: &[u8],
    areas: &mut [u32; AREA_ROOM],
    symbols: &mut [u32; SYMBOL_ROOM],
    values: &mut [u8; IMAGE_ROOM],
    masks: &mut [u8; IMAGE_ROOM],
    fixups: &mut [u32; FIXUP_ROOM],
) -> Given {
    if ended {
        of_ended(ended::read_ended(text, areas, symbols, values, masks, fixups))
    } else {
        of_plain(
            reading::read_plain(text, areas, symbols, values, masks, fixups),
            text.len(),
        )
    }
}

// A text's whole listing, and what standard error is told of a module of this name.
pub(crate) fn list(how: How, s: Sink, out: &mut Buffer, text: &[u8], name: &[u8]) -> Sink {
    let mut areas = [0u32; AREA_ROOM];
    let mut symbols = [0u32; SYMBOL_ROOM];
    let mut values = [0u8; IMAGE_ROOM];
    let mut masks = [0u8; IMAGE_ROOM];
    let mut fixups = [0u32; FIXUP_ROOM];
    let given = read(
        how.ended,
        text,
        &mut areas,
        &mut symbols,
        &mut values,
        &mut masks,
        &mut fixups,
    );
    match given {
        Given::Refused { number, place } => refusal(how, s, out, text, name, number, place),
        Given::Ended {
            counts,
            verdict,
            counted,
        } => {
            let s1 = summary(s, out, counts);
            let s2 = verdict_words::words(s1, out, verdict, counted);
            let s3 = sink::put(s2, out, b"\n");
            let s4 = area_lines(
                s3, out, text, counts, &areas, &symbols, &values, &masks, &fixups,
            );
            let s5 = halted(how, s4, out, text, verdict);
            verdict_words::tell_unless_whole(s5, out, name, verdict, counted)
        }
        Given::Plain { counts, place } => {
            let s1 = summary(s, out, counts);
            let s2 = ending_line(s1, out, place, text.len());
            area_lines(
                s2, out, text, counts, &areas, &symbols, &values, &masks, &fixups,
            )
        }
    }
}
