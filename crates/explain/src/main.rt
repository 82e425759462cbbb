// Tells of one position of a kept area which line wrote it last, and what: explain [--lines] ID POSITION [FILE].
#![tactic(auto)]

mod source;
mod told;

use console::Request;
use host::Host;
use position_lines::Asked;
use std::env::Env;

// The number that a whole word is in a radix.
fn of_word(word: &[u8], radix: u8) -> Option<u32> {
    match quick_numbers::parse_number(word, 0, radix) {
        Ok(n) if n.next == word.len() => Some(n.value),
        _ => None,
    }
}

// The number that the i-th argument gives.
fn number_at(rt: &impl Env, i: usize, radix: u8) -> Option<u32> {
    let mut word = io::buffer();
    let n = host::argument(rt, i, &mut word).ok()?;
    of_word(sink::first_bytes(&word, n), radix)
}

// Whether the first argument asks for the lines: a word of seven bytes that begins as --lines does.
fn asks_lines(rt: &impl Env, count: usize) -> bool {
    let mut word = [0u8; 8];
    let n = host::argument_or_none(rt, 1, &mut word);
    1 < count && n == 7 && word.starts_with(b"--li")
}

// Explains what the arguments from one on give: an area's id, decimal, and a position in it, hex, as the listing has them; then perhaps a file.
fn explain_given(rt: &impl Host, first: usize, count: usize, lines: bool) {
    let Some(id) = number_at(rt, first, 10) else {
        return told::usage();
    };
    let Some(position) = number_at(rt, sink::end_of(first, 1, count), 16) else {
        return told::usage();
    };
    let asked = Asked {
        id: id,
        position: position,
        lines: lines,
    };
    source::explain_argument(rt, asked, sink::end_of(first, 2, count), count)
}

// The same, where there are two or three of them.
fn explain_from(rt: &impl Host, first: usize, count: usize, lines: bool) {
    match count.saturating_sub(first) {
        2 | 3 => explain_given(rt, first, count, lines),
        _ => told::usage(),
    }
}

fn main(rt: HostRuntime) {
    let count = host::argument_count(&rt);
    let lines = asks_lines(&rt, count);
    let first = if lines { 2 } else { 1 };
    match console::asked_from(&rt, first, count) {
        Request::Help => told::help(),
        Request::Unknown(i) => told::unknown(&rt, i),
        Request::Work(_) => explain_from(&rt, first, count, lines),
    }
}
