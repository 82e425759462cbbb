// The rows of a module's records placed at chosen addresses in a lent buffer; a refusal changes no byte of it.
#![tactic(auto)]

ghost use Rattle.std.specs.Prelude.{◌≡◌, leb, ◌&&◌};
ghost use Rattle.placed_rows.specs.Placed.{RowsPlaced};

use cells::fill_bytes;
use fit_rows::fits_rows;
use kept_sizes::sizes_of;
use laid_rows::lay_pairs;
use rooms::AREA_ROOM;
use sites::Filled;

// A refusal with its number and place, or how many bytes were placed.
#[derive(Clone, Copy)]
pub enum Placed {
    Refusal { number: u32, place: usize },
    Done { bytes: usize },
}

// Whether there is an address for each kept area and for each symbol.
fn is_enough(kept: usize, ns: usize, chosen: usize, outside: usize) -> bool
    ensures { result ≡ (leb kept chosen && leb ns outside) }
{
    kept <= chosen && ns <= outside
}

// 1 for too few addresses, 25 for pairs outside the conditions; else the bytes of all kept areas, one behind the other.
pub fn place_rows(
    areas: &[u32; AREA_ROOM],
    symbols: &[u32],
    filled: Filled,
    pairs: &[u32],
    content: &[u8],
    fragments: &[u32],
    n: usize,
    big: bool,
    width: u32,
    chosen: &[u64],
    outside: &[u64],
    out: &mut [u8],
) -> Placed
    ensures { RowsPlaced areas.now symbols.now filled pairs.now content.now fragments.now n big width chosen.now outside.now out.old result out.new }
{
    let sizes = sizes_of(areas, filled.areas);
    if !is_enough(sizes.kept, filled.symbols, chosen.len(), outside.len()) {
        return Placed::Refusal {
            number: 1,
            place: 0,
        };
    }
    if !fits_rows(areas, filled.areas, pairs, fragments, n, width) {
        return Placed::Refusal {
            number: 25,
            place: 0,
        };
    }
    fill_bytes(out, 0, sizes.total, 0);
    lay_pairs(
        pairs, content, fragments, n, big, width, areas, symbols, filled, chosen, outside, out,
    );
    Placed::Done { bytes: sizes.total }
}
