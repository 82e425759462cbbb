// Flags of symbols: 1 for one that goes.
ghost use Rattle.std.specs.Prelude.{◌≡◌, ◌≤◌};
ghost use Rattle.kept_symbols.specs.Staying.{mark_one, marked, staying, stays};

use alike::same_name;
use cells::byte_at;
use symbol_rows::symbol_name;

// Marks symbol j if it has this name.
fn mark_one(text: &[u8], symbols: &[u32], j: usize, name: &[u8], flags: &mut [u8])
    ensures { flags.new ≡ mark_one text.now symbols.now name.now flags.old j }
{
    if !same_name(symbol_name(text, symbols, j), name) {
        return;
    }
    cells::put(flags, j, 1)
}

// Marks each of n symbols that has this name.
pub fn mark(text: &[u8], symbols: &[u32], n: usize, name: &[u8], flags: &mut [u8])
    ensures { flags.new ≡ marked text.now symbols.now name.now flags.old n }
{
    for j in 0..n {
        mark_one(text, symbols, j, name, flags);
    }
}

// 1 for a symbol that stays, 0 for one that goes.
fn one_staying(flags: &[u8], j: usize) -> usize
    ensures { (result ≡ stays flags.now j) × (result ≤ 1) }
{
    if byte_at(flags, j) == 1 {
        return 0;
    }
    1
}

// How many of the first n symbols stay; those that have no flag do.
pub fn staying(flags: &[u8], n: usize) -> usize
    ensures { (result ≡ staying flags.now n) × (result ≤ n) }
{
    let mut k = 0;
    for j in 0..n {
        if flags.len() <= j {
            return k + (n - j);
        }
        k += one_staying(flags, j);
    }
    k
}
