// What is told of one position of a text: the answer's line, the lines that it was told from, and on standard error that the module is not whole.
#![tactic(auto)]

use answer::Counts;
use ended_answer::Answer;
use position_answer::Explained;
use rooms::{AREA_ROOM, FIXUP_ROOM, IMAGE_ROOM, SYMBOL_ROOM};
use sink::{Buffer, Sink};

// An area's id and a position in it, and whether the lines are asked for.
#[derive(Clone, Copy)]
pub struct Asked {
    pub id: u32,
    pub position: u32,
    pub lines: bool,
}

// The position, its value and its mask.
fn line(s: Sink, out: &mut Buffer, position: u32, value: u8, mask: u8) -> Sink {
    let s1 = texts::hex4(s, out, b"", position as usize);
    let shown = hexadecimal::value_and_mask(value as usize, mask as usize);
    sink::put(s1, out, &shown)
}

// A refusal, as the listing has it.
fn refused(s: Sink, out: &mut Buffer, name: &[u8], number: u32, place: usize) -> Sink {
    let s1 = texts::decimal(s, out, b"refused ", number as usize);
    let s2 = texts::decimal(s1, out, b" at ", place);
    let s3 = sink::put(s2, out, b"\n");
    console::tell_refused(s3, out, name, number as usize, place)
}

// What was found.
fn found(s: Sink, out: &mut Buffer, name: &[u8], e: Explained, position: u32) -> Sink {
    match e {
        Explained::Refused { number, place } => refused(s, out, name, number, place),
        Explained::Unwritten => {
            let s1 = line(s, out, position, 0, 0);
            sink::put(s1, out, b" no line\n")
        }
        Explained::Wrote { value, mask, place } => {
            let s1 = line(s, out, position, value, mask);
            let s2 = texts::decimal(s1, out, b" line at ", place as usize);
            sink::put(s2, out, b"\n")
        }
    }
}

// The lines that it was told from, where they are asked for and there are some.
fn lines(
    s: Sink,
    out: &mut Buffer,
    text: &[u8],
    asked: Asked,
    e: Explained,
    counts: Counts,
    areas: &[u32; AREA_ROOM],
    symbols: &[u32; SYMBOL_ROOM],
) -> Sink {
    if !asked.lines {
        return s;
    }
    match e {
        Explained::Wrote {
            value: _,
            mask: _,
            place,
        } => pair_lines::show(
            s,
            out,
            text,
            place as usize,
            asked.position,
            counts,
            areas,
            symbols,
        ),
        _ => s,
    }
}

// What was found in a text that the ended reading gave this answer for. Where the module is not whole, the position was explained from a part of it only.
fn told(
    s: Sink,
    out: &mut Buffer,
    text: &[u8],
    name: &[u8],
    asked: Asked,
    e: Explained,
    answer: Answer,
    areas: &[u32; AREA_ROOM],
    symbols: &[u32; SYMBOL_ROOM],
) -> Sink {
    let s1 = found(s, out, name, e, asked.position);
    match answer {
        Answer::Refusal {
            number: _,
            place: _,
        } => s1,
        Answer::Accepted {
            counts,
            verdict,
            counted,
        } => {
            let s2 = lines(s1, out, text, asked, e, counts, areas, symbols);
            verdict_words::tell_unless_whole(s2, out, name, verdict, counted)
        }
    }
}

// The ended reading of a text, for its verdict, its areas and its symbols.
fn read(text: &[u8], areas: &mut [u32; AREA_ROOM], symbols: &mut [u32; SYMBOL_ROOM]) -> Answer {
    let mut values = [0u8; IMAGE_ROOM];
    let mut masks = [0u8; IMAGE_ROOM];
    let mut fixups = [0u32; FIXUP_ROOM];
    ended::read_ended(text, areas, symbols, &mut values, &mut masks, &mut fixups)
}

// Tells who wrote a position of a text's kept area last.
pub fn tell(out: &mut Buffer, text: &[u8], name: &[u8], asked: Asked) {
    let mut areas = [0u32; AREA_ROOM];
    let mut symbols = [0u32; SYMBOL_ROOM];
    let answer = read(text, &mut areas, &mut symbols);
    let e = one_position::explain(text, asked.id, asked.position);
    let s = told(
        sink::new(),
        out,
        text,
        name,
        asked,
        e,
        answer,
        &areas,
        &symbols,
    );
    sink::flush(s, out);
}
