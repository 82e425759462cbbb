// What a symbol's row says.
ghost use Rattle.std.specs.Prelude.{◌≡◌};
ghost use Rattle.laws.specs.Rows.{symbol_at};
ghost use Rattle.row_parts.specs.Parts.{name_in};

use cells::wide;
use row_parts::{part, symbol_cell};

// A symbol's name, as a part of the text.
#[inline(always)]
pub fn symbol_name<'a>(text: &'a [u8], symbols: &[u32], i: usize) -> &'a [u8]
    ensures { result.now ≡ name_in text.now (symbol_at symbols.now i).name }
{
    let start = wide(symbol_cell(symbols, i, 0));
    let len = wide(symbol_cell(symbols, i, 1));
    part(text, start, len)
}

// Whether a symbol is a Ref.
pub fn is_ref(symbols: &[u32], i: usize) -> bool
    ensures { result ≡ (symbol_at symbols.now i).ref }
{
    symbol_cell(symbols, i, 2) == 1
}

pub fn symbol_value(symbols: &[u32], i: usize) -> u32
    ensures { result ≡ (symbol_at symbols.now i).value }
{
    symbol_cell(symbols, i, 3)
}
