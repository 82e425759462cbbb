// What a report says of one module's text.
use crate::form::{Form, Image, Own};
use answer::Counts;
use counts_of::Counted;
use coverage::Covered;
use ended_answer::{Answer, Verdict};
use rooms::{AREA_ROOM, FIXUP_ROOM, IMAGE_ROOM, SYMBOL_ROOM};
use totals::Figures;

// The number and the place of a refusal.
#[derive(Clone, Copy)]
pub(crate) struct Refused {
    pub(crate) number: u32,
    pub(crate) place: usize,
}

// A module that is read, and what is told of its positions.
#[derive(Clone, Copy)]
pub(crate) struct Read<P> {
    pub(crate) own: Own,
    pub(crate) positions: P,
}

// How many positions there are, how many no line writes, and what is told of them.
#[derive(Clone, Copy)]
struct Mapped<P> {
    count: usize,
    unwritten: usize,
    positions: P,
}

// The figures of a module that is read.
fn figures_of(counts: Counts, known: u64, positions: usize, unwritten: usize) -> Figures {
    Figures {
        kept: counts.kept as u64,
        positions: positions as u64,
        unwritten: unwritten as u64,
        known: known,
        fixups: counts.fixups as u64,
    }
}

// The positions of a text, with their masks and the room for a map.
fn map_in<F: Form>(
    text: &[u8],
    masks: &Image,
    map: &mut Image,
) -> Result<Mapped<F::Positions>, Refused> {
    match coverage::cover(text, map) {
        Covered::Refused { number, place } => Err(Refused {
            number: number,
            place: place,
        }),
        Covered::Told {
            positions,
            unwritten,
        } => Ok(Mapped {
            count: positions,
            unwritten: unwritten,
            positions: F::positions(masks, map, positions),
        }),
    }
}

// The same with a map of its own.
fn map_of<F: Form>(text: &[u8], masks: &Image) -> Result<Mapped<F::Positions>, Refused> {
    let mut map = empty_image();
    map_in::<F>(text, masks, &mut map)
}

// A module that the reading takes, with its masks, areas and fixups.
fn accepted<F: Form>(
    text: &[u8],
    masks: &Image,
    areas: &[u32; AREA_ROOM],
    fixups: &[u32; FIXUP_ROOM],
    counts: Counts,
    verdict: Verdict,
    counted: Counted,
) -> Result<Read<F::Positions>, Refused> {
    let mapped = map_of::<F>(text, masks)?;
    let known = figures::known_in(areas, counts.areas);
    let f = figures_of(counts, known, mapped.count, mapped.unwritten);
    let classes = figures::classes_in(fixups, counts.fixups);
    let finished = matches!(verdict, Verdict::Finished);
    let unequal = matches!(counted, Counted::NotEqual);
    Ok(Read {
        own: Own {
            totals: totals::module(f, classes, finished, unequal),
            verdict: verdict,
            counted: counted,
        },
        positions: mapped.positions,
    })
}

// Rooms of zeros, each made by itself, so that no proof has them in sight.
fn empty_image() -> Image {
    [0; IMAGE_ROOM]
}

fn empty_areas() -> [u32; AREA_ROOM] {
    [0; AREA_ROOM]
}

fn empty_symbols() -> [u32; SYMBOL_ROOM] {
    [0; SYMBOL_ROOM]
}

fn empty_fixups() -> [u32; FIXUP_ROOM] {
    [0; FIXUP_ROOM]
}

// What is said of a text.
pub(crate) fn say<F: Form>(text: &[u8]) -> Result<Read<F::Positions>, Refused> {
    let mut areas = empty_areas();
    let mut symbols = empty_symbols();
    let mut values = empty_image();
    let mut masks = empty_image();
    let mut fixups = empty_fixups();
    let answer = ended::read_ended(
        text,
        &mut areas,
        &mut symbols,
        &mut values,
        &mut masks,
        &mut fixups,
    );
    match answer {
        Answer::Refusal { number, place } => Err(Refused {
            number: number,
            place: place,
        }),
        Answer::Accepted {
            counts,
            verdict,
            counted,
        } => accepted::<F>(text, &masks, &areas, &fixups, counts, verdict, counted),
    }
}
