// The symbol indexes of the fragments' rows.
ghost use Rattle.std.specs.Prelude.{◌≡◌, ◌<◌, ◌/◌, length};
ghost use Rattle.kept_symbols.specs.Staying.{down, down_one, staying};

use cells::{at, put_u32, wide};
use fragment_symbols::to_symbol;

// Numbers in a row of the fragments.
const FRAGMENT_WIDTH: usize = 3;

// An index counted by the symbols that stay.
fn lower(flags: &[u8], x: u32) -> u32
    ensures { result ≡ staying flags.now x }
{
    kept_symbols::staying(flags, wide(x)) as u32
}

// The symbol index of fragment i counted by the symbols that stay.
fn count_one(fragments: &mut [u32], i: usize, flags: &[u8])
    requires { i < length fragments.old / 3 }
    ensures { fragments.new ≡ down_one flags.now fragments.old i }
{
    if !to_symbol(fragments, i) {
        return;
    }
    let j = FRAGMENT_WIDTH * i + 2;
    let x = lower(flags, at(fragments, j));
    put_u32(fragments, j, x)
}

// The symbol indexes of n fragments counted by the symbols that stay.
pub fn count_down(fragments: &mut [u32], n: usize, flags: &[u8])
    ensures { fragments.new ≡ down flags.now fragments.old n }
{
    let m = fragments.len() / 3;
    for i in 0..n.min(m) {
        count_one(fragments, i, flags);
    }
}
