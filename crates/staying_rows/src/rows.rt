// The rows of the symbols that stay.
ghost use Rattle.std.specs.Prelude.{◌≡◌, min, ◌*◌, ◌≤◌};
ghost use Rattle.std.proofs.lemmas.List.Edits.{sets};
ghost use Rattle.kept_symbols.specs.Staying.{Kept, KeptRows, symbol_row};

use cells::byte_at;
use rooms::SYMBOL_WIDTH;
use row_parts::symbol_cell;

// The row of symbol j as the k-th.
fn put_row(out: &mut [u32], k: usize, symbols: &[u32], j: usize)
    requires { k ≤ 1024 }
    ensures { out.new ≡ sets out.old (5 * k) (symbol_row symbols.now j) }
{
    let a = symbol_cell(symbols, j, 0);
    let b = symbol_cell(symbols, j, 1);
    let c = symbol_cell(symbols, j, 2);
    let d = symbol_cell(symbols, j, 3);
    let e = symbol_cell(symbols, j, 4);
    cells::copy_u32s(out, SYMBOL_WIDTH * k, &[a, b, c, d, e], 5)
}

// The row of symbol j as the k-th, if it stays, and which row is next.
fn keep_one(symbols: &[u32], j: usize, k: usize, flags: &[u8], out: &mut [u32]) -> usize
    requires { k ≤ 1024 }
    ensures { Kept symbols.now flags.now j k out.old result out.new }
{
    if byte_at(flags, j) == 1 {
        return k;
    }
    put_row(out, k, symbols, j);
    k + 1
}

// The rows of those of n symbols that stay, at most 1,024 of them, and how many there are.
pub fn keep_rows(symbols: &[u32], n: usize, flags: &[u8], out: &mut [u32]) -> usize
    ensures { KeptRows symbols.now flags.now (min n 1024) out.old result out.new }
{
    let m = n.min(1024);
    let mut k = 0;
    for j in 0..m {
        k = keep_one(symbols, j, k, flags, out);
    }
    k
}
