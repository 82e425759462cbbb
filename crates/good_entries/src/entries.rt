// The rows of areas and symbols.
ghost use Rattle.std.specs.Prelude.{◌≡◌};
ghost use Rattle.row_texts.specs.GoodRows.{all, good_area, good_symbols};

use area_rows::area_name;
use cells::wide;
use good_names::name_good;
use row_parts::symbol_cell;
use symbol_rows::symbol_name;

// Whether each of n areas has a name that can be written.
pub fn areas_good(text: &[u8], areas: &[u32], n: usize) -> bool
    ensures { result ≡ all (good_area text.now areas.now) 0 n }
{
    for i in 0..n {
        if !name_good(area_name(text, areas, i)) {
            return false;
        }
    }
    true
}

// Whether each of n symbols has such a name, and stands behind no area that comes before the one of the symbol before it; of so many areas.
pub fn symbols_good(text: &[u8], areas: usize, symbols: &[u32], n: usize) -> bool
    ensures { result ≡ good_symbols text.now areas symbols.now 0 0 n }
{
    let mut k = 0;
    for j in 0..n {
        let c = wide(symbol_cell(symbols, j, 4));
        if c < k {
            return false;
        }
        if !name_good(symbol_name(text, symbols, j)) {
            return false;
        }
        k = c;
    }
    k <= areas
}
