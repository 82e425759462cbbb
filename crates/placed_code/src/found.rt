// The tables of a text that is read, and what its header says.
ghost use Rattle.std.specs.Prelude.{◌≡◌, suc, length};
ghost use Rattle.header.specs.Told.{form_of, more_of};
ghost use Rattle.admission.specs.Admits.{IsRead};
ghost use Rattle.placed_code.specs.Code.{TablesAt, TablesHeld};

use header::{Form, Head, Width};
use rooms::{AREA_ROOM, SYMBOL_ROOM};
use tables::{Listed, group_one};

// How many areas and symbols there are, the header's order, and how many bytes an address has.
#[derive(Clone, Copy)]
pub(crate) struct Tabled {
    pub areas: usize,
    pub symbols: usize,
    pub big: bool,
    pub width: u32,
}

// How many bytes an address has.
fn bytes_of(width: Width) -> u32
    ensures { result ≡ suc (more_of width) }
{
    match width {
        Width::Two => 2,
        Width::Three => 3,
        Width::Four => 4,
    }
}

// No tables.
fn none_found() -> Tabled {
    Tabled {
        areas: 0,
        symbols: 0,
        big: false,
        width: 2,
    }
}

// The tables of group one from a place on.
fn tables_at(
    text: &[u8],
    at: usize,
    form: Form,
    xs: &mut [u32; AREA_ROOM],
    ys: &mut [u32; SYMBOL_ROOM],
) -> Tabled
    requires { (length xs.old ≡ 448) × (length ys.old ≡ 5120) }
    ensures { TablesAt text.now at (form_of form) result xs.new ys.new }
{
    let w = form.width;
    let width = bytes_of(w);
    match group_one(text, at, at, form, true, xs, ys) {
        Listed::Refused { number: _, at: _ } => none_found(),
        Listed::TooLong => none_found(),
        Listed::Done { found } => Tabled {
            areas: found.areas,
            symbols: found.symbols,
            big: form.big,
            width: width,
        },
    }
}

// The same behind the header, which is looked for again.
pub(crate) fn tables_of(
    text: &[u8],
    xs: &mut [u32; AREA_ROOM],
    ys: &mut [u32; SYMBOL_ROOM],
) -> Tabled
    requires { (IsRead text.now) × (length xs.old ≡ 448) × (length ys.old ≡ 5120) }
    ensures { TablesHeld text.now result xs.new ys.new }
{
    let Head::Found { form, next } = header::format_spec(text) else {
        return none_found();
    };
    let at = next + scan::line_ending(text, next);
    tables_at(text, at, form, xs, ys)
}
