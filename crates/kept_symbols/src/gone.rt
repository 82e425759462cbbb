// The rows of what changed, of which only those of symbols that went are expected.
ghost use Rattle.std.specs.Prelude.{◌≡◌, ◌*◌, get_or};
ghost use Rattle.alike.specs.Looked.{first_of};
ghost use Rattle.kept_symbols.specs.Staying.{other_change};

use cells::at;
use change_rows::SYMBOL_ONLY_OLD;

// The kind of row i, or 0 past the end.
fn kind(list: &[u32], i: usize) -> u32
    ensures { result ≡ get_or list.now (8 * i) 0 }
{
    if list.len() / 8 < i {
        return 0;
    }
    at(list, 8 * i)
}

// The first of n rows that is no symbol that the newer lacks, or n.
pub fn other_change(list: &[u32], n: usize) -> usize
    ensures { result ≡ first_of (other_change list.now) n }
{
    for i in 0..n {
        if kind(list, i) != SYMBOL_ONLY_OLD {
            return i;
        }
    }
    n
}
