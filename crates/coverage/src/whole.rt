// The whole: the rows of a text's records, its tables behind the header, and the map.
ghost use Rattle.std.specs.Prelude.{◌≡◌, suc, ◌≤◌, length};
ghost use Rattle.header.specs.Told.{form_of, more_of};
ghost use Rattle.admission.specs.Admits.{IsRead};
ghost use Rattle.one_position.specs.Explain.{Rowed};
ghost use Rattle.covered.specs.Covered.{CoverMeets};
ghost use Rattle.coverage.specs.Cover.{told, AreasCover, TablesCover};

use crate::Covered;
use crate::rows::cover_rows;
use header::{Form, Head, Width};
use kept_sizes::sizes_of;
use records::read_pairs;
use rooms::{AREA_ROOM, IMAGE_ROOM, SYMBOL_ROOM};
use tables::{Listed, group_one};

// How many bytes an address has.
fn bytes_of(width: Width) -> usize
    ensures { result ≡ suc (more_of width) }
{
    match width {
        Width::Two => 2,
        Width::Three => 3,
        Width::Four => 4,
    }
}

// The map of the first n areas, once the rows of the records are there.
fn by_areas(
    areas: &[u32; AREA_ROOM],
    n: usize,
    pairs: &[u32],
    content: &[u8],
    fragments: &[u32],
    many: usize,
    big: bool,
    width: usize,
    map: &mut [u8],
) -> Covered
    requires { (many ≤ 4096) × (n ≤ 64) × (65536 ≤ length map.old) }
    ensures { AreasCover areas.now n pairs.now content.now fragments.now many big width map.old result map.new }
{
    let sizes = sizes_of(areas, n);
    let positions = sizes.total;
    if IMAGE_ROOM < positions {
        return Covered::Refused {
            number: 9,
            place: 0,
        };
    }
    Covered::Told {
        positions: positions,
        unwritten: cover_rows(
            areas, n, positions, pairs, content, fragments, many, big, width, map,
        ),
    }
}

// The tables of group one from a place on, and the map.
fn by_tables(
    text: &[u8],
    at: usize,
    form: Form,
    xs: &mut [u32; AREA_ROOM],
    ys: &mut [u32; SYMBOL_ROOM],
    pairs: &[u32],
    content: &[u8],
    fragments: &[u32],
    many: usize,
    map: &mut [u8],
) -> Covered
    requires { (many ≤ 4096) × (length xs.old ≡ 448) × (length ys.old ≡ 5120) × (65536 ≤ length map.old) }
    ensures { TablesCover text.now at (form_of form) pairs.now content.now fragments.now many map.old result map.new }
{
    let w = form.width;
    let width = bytes_of(w);
    match group_one(text, at, at, form, true, xs, ys) {
        Listed::Refused { number, at: p } => Covered::Refused {
            number: number,
            place: p,
        },
        Listed::TooLong => Covered::Refused {
            number: 2,
            place: 0,
        },
        Listed::Done { found } => by_areas(
            xs,
            found.areas,
            pairs,
            content,
            fragments,
            many,
            form.big,
            width,
            map,
        ),
    }
}

// A text that is read, with the rows of its records: its header is looked for again.
fn by_rows(
    text: &[u8],
    pairs: &[u32],
    content: &[u8],
    fragments: &[u32],
    many: usize,
    map: &mut [u8],
) -> Covered
    requires { (IsRead text.now) × (Rowed text.now pairs.now content.now fragments.now many) × (65536 ≤ length map.old) }
    ensures { CoverMeets text.now map.old (told result) map.new }
{
    let Head::Found { form, next } = header::format_spec(text) else {
        return Covered::Refused {
            number: 4,
            place: 0,
        };
    };
    let at = next + scan::line_ending(text, next);
    let mut xs = [0u32; AREA_ROOM];
    let mut ys = [0u32; SYMBOL_ROOM];
    by_tables(
        text, at, form, &mut xs, &mut ys, pairs, content, fragments, many, map,
    )
}

// The records of a text in lent arrays, or its refusal; then the map.
fn by_records(
    text: &[u8],
    pairs: &mut [u32],
    content: &mut [u8],
    fragments: &mut [u32],
    map: &mut [u8],
) -> Covered
    requires { (length pairs.old ≡ 28672) × (length content.old ≡ 32768) × (length fragments.old ≡ 24576) × (65536 ≤ length map.old) }
    ensures { CoverMeets text.now map.old (told result) map.new }
{
    match read_pairs(text, pairs, content, fragments) {
        Err(refusal) => Covered::Refused {
            number: refusal.number,
            place: refusal.place,
        },
        Ok(counts) => by_rows(text, pairs, content, fragments, counts.pairs, map),
    }
}

// How many positions the kept areas of a text have, and how many of them no line writes; in the lent map 1 for each that is written and 0 for each that is not.
// 1 for a map of fewer than 65,536 bytes, and the refusals of the ended reading; the map is then as it was.
pub fn cover(text: &[u8], map: &mut [u8]) -> Covered
    ensures { CoverMeets text.now map.old (told result) map.new }
{
    if map.len() < IMAGE_ROOM {
        return Covered::Refused {
            number: 1,
            place: 0,
        };
    }
    let mut pairs = [0u32; 28672];
    let mut content = [0u8; 32768];
    let mut fragments = [0u32; 24576];
    by_records(text, &mut pairs, &mut content, &mut fragments, map)
}
