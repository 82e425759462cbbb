// The kept areas one after the other, and a stretch of their images; for any rows and any image.
#![tactic(auto)]

ghost use Rattle.std.specs.Prelude.{◌≡◌, take, drop};
ghost use Rattle.format.specs.Tables.{kept};
ghost use Rattle.laws.specs.Rows.{area_at};
ghost use Rattle.next_areas.specs.Next.{next_kept};

use area_rows::{area_size, is_code};

// Whether area i is kept.
fn is_kept(areas: &[u32], i: usize) -> bool
    ensures { result ≡ kept (area_at areas.now i) }
{
    if is_code(areas, i) {
        return 1 <= area_size(areas, i);
    }
    false
}

// The first of n areas, from one on, that is kept; or n, or where it began if that is behind them.
pub fn next_kept(areas: &[u32], n: usize, i: usize) -> usize
    ensures { result ≡ next_kept areas.now n i }
{
    for j in i..n {
        if is_kept(areas, j) {
            return j;
        }
    }
    n.max(i)
}

// So many bytes from a place on, or as many of them as there are.
pub fn stretch<'a>(bytes: &'a [u8], start: usize, size: usize) -> &'a [u8]
    ensures { result.now ≡ take size (drop start bytes.now) }
{
    if bytes.len() <= start {
        return &bytes[..0];
    }
    if bytes.len() - start < size {
        return &bytes[start..];
    }
    let end = start + size;
    &bytes[start..end]
}
