// Group one: the O, H, M, A and S lines behind the header.
ghost use Rattle.std.specs.Prelude.{◌≡◌};
ghost use Rattle.header.specs.Told.{form_of};
ghost use Rattle.tables.specs.GroupOne.{found_of, Grouped};

use header::Form;
use one_entry::add_entry;
use rooms::{AREA_ROOM, SYMBOL_ROOM, TEXT_ROOM};
use steps::{EntryStep, entry_step};

// How many areas and symbols there are, where group two begins if there is more, and where the last record ended.
#[derive(Clone, Copy)]
pub struct Found {
    pub areas: usize,
    pub symbols: usize,
    pub next: usize,
    pub stop: usize,
    pub more: bool,
}

// What was found; or the refusal of a line; or that the text is longer than 65,536 bytes, and nothing is read.
#[derive(Clone, Copy)]
pub enum Listed {
    Done { found: Found },
    Refused { number: u32, at: usize },
    TooLong,
}

// What was found so far.
fn found_of(areas: usize, symbols: usize, next: usize, stop: usize, more: bool) -> Found
    ensures { result ≡ found_of areas symbols next stop more }
{
    Found {
        areas: areas,
        symbols: symbols,
        next: next,
        stop: stop,
        more: more,
    }
}

// Group one from a place on, behind a header that ended at head: the rows of its areas and symbols. Past the end of the text there is none.
// Symbols for which no room was lent are counted and not written.
pub fn group_over(
    t: &[u8],
    at: usize,
    head: usize,
    form: Form,
    ended: bool,
    areas: &mut [u32; AREA_ROOM],
    symbols: &mut [u32],
) -> Listed
    ensures { Grouped ended (form_of form) t.now at head areas.old symbols.old areas.new symbols.new result }
{
    if TEXT_ROOM < t.len() {
        return Listed::TooLong;
    }
    let mut f = found_of(0, 0, at, head, true);
    loop {
        let p = f.next;
        let step = entry_step(t, p, form, ended);
        let EntryStep::Takes {
            entry,
            end,
            next,
            on,
        } = step
        else {
            return Listed::Done { found: f };
        };
        let rows = match add_entry(entry, p, f.areas, f.symbols, areas, symbols) {
            Ok(rows) => rows,
            Err(full) => {
                return Listed::Refused {
                    number: full.number,
                    at: p,
                };
            }
        };
        f = found_of(rows.areas, rows.symbols, next, end, on);
        if !on {
            return Listed::Done { found: f };
        }
    }
}

// The same with room for as many symbols as are not refused.
pub fn group_one(
    t: &[u8],
    at: usize,
    head: usize,
    form: Form,
    ended: bool,
    areas: &mut [u32; AREA_ROOM],
    symbols: &mut [u32; SYMBOL_ROOM],
) -> Listed
    ensures { Grouped ended (form_of form) t.now at head areas.old symbols.old areas.new symbols.new result }
{
    group_over(t, at, head, form, ended, areas, symbols)
}
