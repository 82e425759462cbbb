// Looks a name up in a pattern book, or tells what is in it.
#![tactic(auto)]

mod contents;
mod pattern;
mod told;

use host::Host;
use sink::Buffer;
use std::env::Env;
use std::io::Read;

// One byte more than the longest book that is read.
const ROOM: usize = 2097153;

// A lent room of that length.
type Room = [u8; ROOM];

// Tells the pattern of the name that an argument gives.
fn look(rt: &impl Env, out: &mut Buffer, book: &[u8], i: usize) {
    let mut name = io::large_buffer();
    match host::argument(rt, i, &mut name) {
        Ok(n) => pattern::tell(out, book, sink::first_bytes(&name, n)),
        Err(why) => console::tell_reason(b"the name", why),
    }
}

// Tells what is asked for of a book that is opened.
fn answer(rt: &impl Env, out: &mut Buffer, book: &[u8], count: usize) {
    match book_open::open_book(book) {
        Err(why) => told::refused(out, usize::from(why.number), why.place),
        Ok(entries) => {
            if count < 3 {
                contents::tell(out, book, entries)
            } else {
                look(rt, out, book, 2)
            }
        }
    }
}

// The book that a reader gives.
fn read(rt: &impl Env, room: &mut Room, reader: &mut impl Read, file: &[u8], count: usize) {
    let mut out = io::large_buffer();
    match bulk::fill(reader, room) {
        Err(why) => console::tell_reason(file, why),
        Ok(n) => {
            if ROOM <= n {
                console::tell_words(file, b"longer than 2097152 bytes");
                return;
            }
            answer(rt, &mut out, sink::first_bytes(room, n), count)
        }
    }
}

// A room of zeros: made by itself, so that no proof has two million of them in sight.
fn empty_room() -> Room {
    [0; ROOM]
}

// The book of this name; - is standard input.
fn open(rt: &impl Host, file: &[u8], count: usize) {
    let mut room = empty_room();
    if file.len() == 1 && cells::byte_at(file, 0) == b'-' {
        read(rt, &mut room, &mut rt.reader(), file, count);
        return;
    }
    match host::open(rt, file) {
        Ok(mut opened) => read(rt, &mut room, &mut opened, file, count),
        Err(why) => console::tell_reason(file, why),
    }
}

// The first argument: help, or the book's name.
fn first(rt: &impl Host, count: usize) {
    let mut file = io::buffer();
    match host::argument(rt, 1, &mut file) {
        Ok(n) => named(rt, sink::first_bytes(&file, n), count),
        Err(why) => console::tell_reason(b"the book", why),
    }
}

// The first argument's word: help, or the book's name.
fn named(rt: &impl Host, word: &[u8], count: usize) {
    if help_word::asks_help(word) {
        told::help();
        return;
    }
    open(rt, word, count)
}

fn main(rt: HostRuntime) {
    let count = host::argument_count(&rt);
    if count < 2 || 3 < count {
        console::tell_words(b"usage", b"lookup BOOK [NAME]");
        return;
    }
    first(&rt, count)
}
