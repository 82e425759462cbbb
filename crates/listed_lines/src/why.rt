// The line at which a module that is not whole came to a halt, and under it a caret with the reason in words.
use sink::{Buffer, Sink};

// What a reason means.
fn reason_words(s: Sink, out: &mut Buffer, reason: u8) -> Sink {
    match reason {
        1 => sink::put(s, out, b"reason 1: a number is due, and there is no digit"),
        2 => sink::put(s, out, b"reason 2: a number over 32 bits"),
        3 => sink::put(s, out, b"reason 3: a number over 255"),
        _ => sink::put(s, out, b"reason 4: the line cannot go on like this"),
    }
}

// Why a reading stopped: the line with the halt, and the reason.
pub fn why_stopped(s: Sink, out: &mut Buffer, text: &[u8], reason: u8, halt: usize) -> Sink {
    let s1 = marked_line::marked(s, out, text, halt);
    let s2 = reason_words(s1, out, reason);
    if halt < text.len() {
        return sink::put(s2, out, b"\n");
    }
    sink::put(s2, out, b": the text ends here\n")
}

// What a refusal from 1 to 8 means.
fn low_words(s: Sink, out: &mut Buffer, number: u32) -> Sink {
    match number {
        1 => sink::put(s, out, b"a buffer is too short"),
        2 => sink::put(s, out, b"the text has more than 65,536 bytes"),
        3 => sink::put(s, out, b"a byte is above 127"),
        4 => sink::put(s, out, b"there is no header line, such as XH3"),
        5 => sink::put(s, out, b"this area is the 65th"),
        6 => sink::put(s, out, b"this symbol is the 1,025th"),
        7 => sink::put(s, out, b"this T line has more than 256 bytes of content"),
        _ => sink::put(
            s,
            out,
            b"the R line behind this T line has more than 64 fragments",
        ),
    }
}

// What any refusal means.
fn refusal_words(s: Sink, out: &mut Buffer, number: u32) -> Sink {
    match number {
        9 => sink::put(
            s,
            out,
            b"the areas with code have more than 65,536 bytes together",
        ),
        10 => sink::put(s, out, b"a fragment runs past this T line"),
        11 => sink::put(
            s,
            out,
            b"a fragment of this line names a symbol that is not there",
        ),
        12 => sink::put(s, out, b"a fixup of this line has no number"),
        13 => sink::put(s, out, b"this line gives the 1,025th fixup"),
        18 => sink::put(s, out, b"the header is Q or D, and only X is taken"),
        _ => low_words(s, out, number),
    }
}

// Whether a refusal is of the text as a whole and not of a line of it.
fn of_the_whole(number: u32) -> bool {
    number == 1 || number == 2 || number == 9
}

// Why a text is refused: the line that gives the refusal, if one does, and what it means.
pub fn why_refused(s: Sink, out: &mut Buffer, text: &[u8], number: u32, place: usize) -> Sink {
    let s1 = if of_the_whole(number) {
        s
    } else {
        marked_line::marked(s, out, text, place)
    };
    let s2 = texts::decimal(s1, out, b"refused ", cells::wide(number));
    let s3 = sink::put(s2, out, b": ");
    let s4 = refusal_words(s3, out, number);
    sink::put(s4, out, b"\n")
}
