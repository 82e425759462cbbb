// The rows of the symbols that belong to an area.
ghost use Rattle.std.specs.Prelude.{◌≡◌, ◌-◌};
ghost use Rattle.row_parts.specs.Ranges.{passing};
ghost use Rattle.symbol_rows.specs.Ranges.{symbol_in, symbols_of};

use cells::wide;
use row_parts::{Range, same_as, symbol_cell};

// Whether symbol j lies in area i; or whether it does not.
fn symbol_in(symbols: &[u32], j: usize, i: usize, same: bool) -> bool
    ensures { result ≡ symbol_in symbols.now i same j }
{
    let home = symbol_cell(symbols, j, 4);
    if home == 0 {
        return same_as(false, same);
    }
    same_as(wide(home) - 1 == i, same)
}

// The first of n symbols, from one on, that does not lie in area i; or that does.
fn past_symbols(symbols: &[u32], n: usize, from: usize, i: usize, same: bool) -> usize
    ensures { result ≡ passing (symbol_in symbols.now i same) from (n - from) }
{
    for j in from..n {
        if !symbol_in(symbols, j, i, same) {
            return j;
        }
    }
    n.max(from)
}

// The symbols behind area i's line, among n symbols.
pub fn area_symbols(symbols: &[u32], n: usize, i: usize) -> Range
    ensures { result ≡ symbols_of symbols.now n i }
{
    let start = past_symbols(symbols, n, 0, i, false);
    let end = past_symbols(symbols, n, start, i, true);
    Range {
        start: start,
        end: end,
    }
}
