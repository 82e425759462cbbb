// How many fixup rows there are behind a fragment: 11, 12 and 13 as one fragment meets them; and by how much the position grows behind an entry.
#![tactic(auto)]

ghost use Rattle.std.specs.Prelude.{◌≡◌, eqb, get_or};
ghost use Rattle.format.specs.Lists.{pick};
ghost use Rattle.row_count.specs.Count.{OneMore, CountedFor};

use cells::{byte_at, wide};
use references::Refers;

// One fixup more than k, for the i-th fragment: 12 if there is no number i of n, 13 if there are too many.
pub fn one_more(i: usize, n: usize, k: usize) -> Result<usize, u32>
    ensures { OneMore i n k result }
{
    if n <= i {
        return Err(12);
    }
    if 1024 <= k {
        return Err(13);
    }
    Ok(k + 1)
}

// How many fixups there are behind the i-th fragment, with k before it; or a refusal's number.
pub fn count_to(to: Refers, i: usize, n: usize, k: usize) -> Result<usize, u32>
    ensures { CountedFor to i n k result }
{
    match to {
        Refers::Missing => Err(11),
        Refers::Nothing => Ok(k),
        Refers::To(_) => one_more(i, n, k),
    }
}

// By how much the position grows behind the entry e: 1 if it is kept.
pub fn grows(wk: &[u8], e: u32) -> u32
    ensures { result ≡ pick (eqb (get_or wk.now e 0) 1) 1 0 }
{
    if byte_at(wk, wide(e)) == 1 { 1 } else { 0 }
}
