// The values of two symbols, and a symbol whose name the other side lacks.
ghost use Rattle.std.specs.Prelude.{◌≡◌, eqb};
ghost use Rattle.laws.specs.Rows.{symbol_at};
ghost use Rattle.symbol_sides.specs.Sides.{on_one_side};

use change_rows::Side;
use name_index::first_named;
use symbol_rows::{symbol_name, symbol_value};

// Whether symbol i of one side and symbol j of the other have one value.
pub fn same_value(xs: &[u32], i: usize, ys: &[u32], j: usize) -> bool
    ensures { result ≡ eqb (symbol_at xs.now i).value (symbol_at ys.now j).value }
{
    symbol_value(xs, i) == symbol_value(ys, j)
}

// Whether symbol i of this side is the first of its name, and none of the other side has that name; by an index of each side.
pub fn on_one_side(this: &Side, index: &[u32], other: &Side, names: &[u32], i: usize) -> bool
    ensures { result ≡ on_one_side this.now.text.now this.now.symbols.now this.now.symbol_count index.now other.now.text.now other.now.symbols.now other.now.symbol_count names.now i }
{
    let (m, n) = (this.symbol_count, other.symbol_count);
    let name = symbol_name(this.text, this.symbols, i);
    if first_named(name, this.text, this.symbols, m, index) == i {
        let j = first_named(name, other.text, other.symbols, n, names);
        return n <= j;
    }
    false
}
