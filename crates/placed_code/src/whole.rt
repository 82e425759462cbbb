// The whole: the rows of a text's records, its tables, and the code.
ghost use Rattle.std.specs.Prelude.{◌≡◌, ◌≤◌, length};
ghost use Rattle.admission.specs.Admits.{IsRead};
ghost use Rattle.one_position.specs.Explain.{Rowed};
ghost use Rattle.placed_code.specs.Code.{CodeIs, ReadPlaced};

use crate::found::tables_of;
use placed_rows::{Placed, place_rows};
use records::read_pairs;
use rooms::{AREA_ROOM, IMAGE_ROOM, SYMBOL_ROOM};
use sites::Filled;

// A text that is read, with the rows of its records and arrays for those of its tables.
fn by_tables(
    text: &[u8],
    xs: &mut [u32; AREA_ROOM],
    ys: &mut [u32; SYMBOL_ROOM],
    pairs: &[u32],
    content: &[u8],
    fragments: &[u32],
    many: usize,
    areas: &[u64],
    outside: &[u64],
    out: &mut [u8],
) -> Placed
    requires { (IsRead text.now) × (Rowed text.now pairs.now content.now fragments.now many) × (length xs.old ≡ 448) × (length ys.old ≡ 5120) × (65536 ≤ length out.old) }
    ensures { ReadPlaced text.now areas.now outside.now out.old result out.new }
{
    let t = tables_of(text, xs, ys);
    let filled = Filled {
        areas: t.areas,
        symbols: t.symbols,
        fixups: 0,
        known: 0,
    };
    place_rows(
        xs, ys, filled, pairs, content, fragments, many, t.big, t.width, areas, outside, out,
    )
}

// The same with arrays of its own.
fn by_rows(
    text: &[u8],
    pairs: &[u32],
    content: &[u8],
    fragments: &[u32],
    many: usize,
    areas: &[u64],
    outside: &[u64],
    out: &mut [u8],
) -> Placed
    requires { (IsRead text.now) × (Rowed text.now pairs.now content.now fragments.now many) × (65536 ≤ length out.old) }
    ensures { ReadPlaced text.now areas.now outside.now out.old result out.new }
{
    let mut xs = [0u32; AREA_ROOM];
    let mut ys = [0u32; SYMBOL_ROOM];
    by_tables(
        text, &mut xs, &mut ys, pairs, content, fragments, many, areas, outside, out,
    )
}

// The records of a text in lent arrays, or its refusal; then the code.
fn by_records(
    text: &[u8],
    pairs: &mut [u32],
    content: &mut [u8],
    fragments: &mut [u32],
    areas: &[u64],
    outside: &[u64],
    out: &mut [u8],
) -> Placed
    requires { (length pairs.old ≡ 28672) × (length content.old ≡ 32768) × (length fragments.old ≡ 24576) × (65536 ≤ length out.old) }
    ensures { CodeIs text.now areas.now outside.now out.old result out.new }
{
    match read_pairs(text, pairs, content, fragments) {
        Err(refusal) => Placed::Refusal {
            number: refusal.number,
            place: refusal.place,
        },
        Ok(counts) => by_rows(
            text,
            pairs,
            content,
            fragments,
            counts.pairs,
            areas,
            outside,
            out,
        ),
    }
}

// A module's code at chosen addresses: of kept areas by their ids, of outside symbols by their indexes in the symbol table. 1 for a buffer shorter than 65,536, the refusals of the ended reading, 1 for too
// few addresses, 25 for a module outside the conditions; else the bytes of all kept areas, one behind the other.
pub fn place_code(text: &[u8], areas: &[u64], outside: &[u64], out: &mut [u8]) -> Placed
    ensures { CodeIs text.now areas.now outside.now out.old result out.new }
{
    if out.len() < IMAGE_ROOM {
        return Placed::Refusal {
            number: 1,
            place: 0,
        };
    }
    let mut pairs = [0u32; 28672];
    let mut content = [0u8; 32768];
    let mut fragments = [0u32; 24576];
    by_records(
        text,
        &mut pairs,
        &mut content,
        &mut fragments,
        areas,
        outside,
        out,
    )
}
