// The whole: the rows of a text's records, its tables behind the header, and the answer.
ghost use Rattle.std.specs.Prelude.{◌≡◌, suc, ◌≤◌, length};
ghost use Rattle.header.specs.Told.{form_of, more_of};
ghost use Rattle.admission.specs.Admits.{IsRead};
ghost use Rattle.one_position.specs.Explain.{Rowed, TablesTell, Told};

use crate::told::answer;
use header::{Form, Head, Width};
use position_answer::Explained;
use records::read_pairs;
use rooms::{AREA_ROOM, SYMBOL_ROOM};
use tables::{Listed, group_one};

// How many bytes an address has.
fn bytes_of(width: Width) -> usize
    ensures { result ≡ suc (more_of width) }
{
    match width {
        Width::Two => 2,
        Width::Three => 3,
        Width::Four => 4,
    }
}

// The tables of group one from a place on, and the answer.
fn by_tables(
    text: &[u8],
    at: usize,
    form: Form,
    xs: &mut [u32; AREA_ROOM],
    ys: &mut [u32; SYMBOL_ROOM],
    pairs: &[u32],
    content: &[u8],
    fragments: &[u32],
    many: usize,
    id: u32,
    position: u32,
) -> Explained
    requires { (many ≤ 4096) × (length xs.old ≡ 448) × (length ys.old ≡ 5120) }
    ensures { TablesTell text.now at (form_of form) pairs.now content.now fragments.now many id position result }
{
    let w = form.width;
    let width = bytes_of(w);
    match group_one(text, at, at, form, true, xs, ys) {
        Listed::Refused { number, at: p } => Explained::Refused {
            number: number,
            place: p,
        },
        Listed::TooLong => Explained::Refused {
            number: 2,
            place: 0,
        },
        Listed::Done { found } => answer(
            xs,
            found.areas,
            pairs,
            content,
            fragments,
            many,
            form.big,
            width,
            id,
            position,
        ),
    }
}

// A text that is read, with the rows of its records: its header is looked for again.
fn by_rows(
    text: &[u8],
    pairs: &[u32],
    content: &[u8],
    fragments: &[u32],
    many: usize,
    id: u32,
    position: u32,
) -> Explained
    requires { (IsRead text.now) × (Rowed text.now pairs.now content.now fragments.now many) }
    ensures { Told text.now id position result }
{
    let Head::Found { form, next } = header::format_spec(text) else {
        return Explained::Refused {
            number: 4,
            place: 0,
        };
    };
    let at = next + scan::line_ending(text, next);
    let mut xs = [0u32; AREA_ROOM];
    let mut ys = [0u32; SYMBOL_ROOM];
    by_tables(
        text, at, form, &mut xs, &mut ys, pairs, content, fragments, many, id, position,
    )
}

// The records of a text in lent arrays, or its refusal; then the answer.
fn by_records(
    text: &[u8],
    pairs: &mut [u32],
    content: &mut [u8],
    fragments: &mut [u32],
    id: u32,
    position: u32,
) -> Explained
    requires { (length pairs.old ≡ 28672) × (length content.old ≡ 32768) × (length fragments.old ≡ 24576) }
    ensures { Told text.now id position result }
{
    match read_pairs(text, pairs, content, fragments) {
        Err(refusal) => Explained::Refused {
            number: refusal.number,
            place: refusal.place,
        },
        Ok(counts) => by_rows(text, pairs, content, fragments, counts.pairs, id, position),
    }
}

// Who wrote a position of the kept area with an id last, and what: the refusals of the ended reading; 20 for an id or a position that does not exist; else from the last pair back.
pub fn explain(text: &[u8], id: u32, position: u32) -> Explained
    ensures { Told text.now id position result }
{
    let mut pairs = [0u32; 28672];
    let mut content = [0u8; 32768];
    let mut fragments = [0u32; 24576];
    by_records(text, &mut pairs, &mut content, &mut fragments, id, position)
}
