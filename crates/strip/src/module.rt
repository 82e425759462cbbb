// A module without the symbols that the arguments name.
use crate::names;
use crate::names::Flags;
use answer::{Counts, Verdict};
use changes_of::changes_of;
use header::Head;
use kept_symbols::other_change;
use rooms::{AREA_ROOM, FIXUP_ROOM, IMAGE_ROOM, SYMBOL_ROOM, TEXT_ROOM};
use staying_indexes::count_down;
use staying_rows::keep_rows;
use std::env::Env;

// How many arguments there are, and where the options end.
#[derive(Clone, Copy)]
pub(crate) struct Asked {
    pub end: usize,
    pub count: usize,
}

// Whether nothing changed from a module to what is left of it but that symbols went.
fn only_symbols_went(text: &[u8], left: &[u8]) -> bool {
    let mut list = [0u32; 8192];
    match changes_of(text, left, &mut list) {
        Ok(rows) => rows <= other_change(&list, rows),
        Err(_) => false,
    }
}

// Writes what is left, if it reads the same.
fn hand_over(text: &[u8], left: &[u8]) {
    if only_symbols_went(text, left) {
        io::write_all(host::STDOUT_FILENO, left);
        return;
    }
    console::tell_words(b"-", b"the module would not read the same")
}

// Writes a module without the marked symbols, its rows at hand.
fn write_left(
    text: &[u8],
    counts: Counts,
    areas: &[u32; AREA_ROOM],
    symbols: &[u32; SYMBOL_ROOM],
    pairs: &[u32; 28672],
    content: &[u8; 32768],
    fragments: &[u32; 24576],
    flags: &Flags,
) {
    let Head::Found { form, next: _ } = header::format_spec(text) else {
        return;
    };
    let mut left = [0u32; SYMBOL_ROOM];
    let mut out = [0u8; TEXT_ROOM];
    let n = keep_rows(symbols, counts.symbols, flags, &mut left);
    match writer::write_module(
        form,
        text,
        areas,
        counts.areas,
        &left,
        n,
        pairs,
        counts.lines,
        content,
        fragments,
        &mut out,
    ) {
        Err(why) => console::tell_number(b"-", why.number as usize, why.place),
        Ok(count) => hand_over(text, sink::first_bytes(&out, count)),
    }
}

// Takes the marked symbols out of a module whose tables are at hand, if no R line refers to one.
fn strip_marked(
    text: &[u8],
    counts: Counts,
    areas: &[u32; AREA_ROOM],
    symbols: &[u32; SYMBOL_ROOM],
    flags: &Flags,
) {
    let mut pairs = [0u32; 28672];
    let mut content = [0u8; 32768];
    let mut fragments = [0u32; 24576];
    match records::read_pairs(text, &mut pairs, &mut content, &mut fragments) {
        Err(refusal) => console::tell_number(b"-", refusal.number as usize, refusal.place),
        Ok(n) => {
            if names::all_free(
                text,
                symbols,
                counts.symbols,
                &fragments,
                n.fragments,
                flags,
            ) {
                count_down(&mut fragments, n.fragments, flags);
                write_left(
                    text, counts, areas, symbols, &pairs, &content, &fragments, flags,
                );
            }
        }
    }
}

// Strips a module whose tables are at hand.
fn strip_read(
    rt: &impl Env,
    text: &[u8],
    asked: Asked,
    counts: Counts,
    areas: &[u32; AREA_ROOM],
    symbols: &[u32; SYMBOL_ROOM],
) {
    let mut flags: Flags = [0u8; 1024];
    if names::mark_all(
        rt,
        text,
        symbols,
        counts.symbols,
        asked.end,
        asked.count,
        &mut flags,
    ) {
        strip_marked(text, counts, areas, symbols, &flags);
    }
}

// Strips a module.
pub(crate) fn strip_text(rt: &impl Env, text: &[u8], asked: Asked) {
    let mut areas = [0u32; AREA_ROOM];
    let mut symbols = [0u32; SYMBOL_ROOM];
    let mut values = [0u8; IMAGE_ROOM];
    let mut masks = [0u8; IMAGE_ROOM];
    let mut fixups = [0u32; FIXUP_ROOM];
    match reading::read_ended(
        text,
        &mut areas,
        &mut symbols,
        &mut values,
        &mut masks,
        &mut fixups,
    ) {
        Err(refusal) => console::tell_number(b"-", refusal.number as usize, refusal.place),
        Ok(told) => match told.verdict {
            Verdict::Stopped { place } => console::tell_place(b"-", place),
            Verdict::Finished => strip_read(rt, text, asked, told.counts, &areas, &symbols),
        },
    }
}
