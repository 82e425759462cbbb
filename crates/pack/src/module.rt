// A module read, and its kept areas put on the shelf.
use crate::shelf::Shelf;
use crate::whole::Whole;
use crate::{name, shelf, whole};
use answer::{Accepted, Answer, Counts};
use rooms::{AREA_ROOM, FIXUP_ROOM, IMAGE_ROOM, SYMBOL_ROOM};

// Area i, if it is kept.
fn area(
    pool: &mut [u8],
    rows: &mut [u32],
    s: Shelf,
    name: &[u8],
    areas: &[u32],
    n: usize,
    i: usize,
    values: &[u8],
    masks: &[u8],
) -> Shelf {
    match kept_areas::area_id(areas, n, i) {
        None => s,
        Some(id) => shelf::add(
            pool,
            rows,
            s,
            name,
            id,
            kept_areas::area_image(values, areas, n, i),
            kept_areas::area_image(masks, areas, n, i),
        ),
    }
}

// All kept areas.
fn areas_of(
    pool: &mut [u8],
    rows: &mut [u32],
    s: Shelf,
    name: &[u8],
    areas: &[u32],
    n: usize,
    values: &[u8],
    masks: &[u8],
) -> Shelf {
    let mut now = s;
    for i in 0..n {
        now = area(pool, rows, now, name, areas, n, i, values, masks);
    }
    now
}

// Room for every module: areas' rows, symbols' rows, positions, fixups' rows.
const AREAS: usize = AREA_ROOM;

const SYMBOLS: usize = SYMBOL_ROOM;

const IMAGE: usize = IMAGE_ROOM;

const FIXUPS: usize = FIXUP_ROOM;

// A module read by the ended reading.
fn read(
    text: &[u8],
    areas: &mut [u32; AREAS],
    symbols: &mut [u32; SYMBOLS],
    values: &mut [u8; IMAGE],
    masks: &mut [u8; IMAGE],
    fixups: &mut [u32; FIXUPS],
) -> Answer {
    reading::read_ended(text, areas, symbols, values, masks, fixups)
}

// A module's text: whole, it is put on the shelf under its name; else that is told.
pub(crate) fn add(pool: &mut [u8], rows: &mut [u32], s: Shelf, text: &[u8], shown: &[u8]) -> Shelf {
    let mut areas = [0u32; AREAS];
    let mut symbols = [0u32; SYMBOLS];
    let mut values = [0u8; IMAGE];
    let mut masks = [0u8; IMAGE];
    let mut fixups = [0u32; FIXUPS];
    let answer = read(
        text,
        &mut areas,
        &mut symbols,
        &mut values,
        &mut masks,
        &mut fixups,
    );
    match answer {
        Err(refusal) => {
            console::tell_number(shown, cells::wide(refusal.number), refusal.place);
            shelf::spoilt(s)
        }
        Ok(Accepted { counts, verdict }) => match whole::judged(text, counts, verdict) {
            Whole::Stopped(place) => {
                console::tell_place(shown, place);
                shelf::spoilt(s)
            }
            Whole::Unequal => {
                console::tell_words(shown, b"counts not equal");
                shelf::spoilt(s)
            }
            Whole::Yes => {
                if s.listing {
                    return listed(s, text, shown, &fixups, counts.fixups);
                }
                taken(pool, rows, s, shown, counts, &areas, &values, &masks)
            }
        },
    }
}

// The fixups of a whole module, listed, unless standard output takes no more.
fn listed(s: Shelf, text: &[u8], shown: &[u8], fixups: &[u32; FIXUPS], n: usize) -> Shelf {
    if s.full {
        return s;
    }
    if fixup_list::tell_fixups(name::module(shown), text, fixups, n) {
        return s;
    }
    shelf::over(s)
}

// The kept areas of a whole module.
fn taken(
    pool: &mut [u8],
    rows: &mut [u32],
    s: Shelf,
    shown: &[u8],
    counts: Counts,
    areas: &[u32; AREAS],
    values: &[u8; IMAGE],
    masks: &[u8; IMAGE],
) -> Shelf {
    areas_of(
        pool,
        rows,
        s,
        name::module(shown),
        areas,
        counts.areas,
        values,
        masks,
    )
}
