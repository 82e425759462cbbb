// Whether an area is kept, and the size of its image.
ghost use Rattle.std.specs.Prelude.{◌≡◌};
ghost use Rattle.format.specs.Tables as the;
ghost use Rattle.laws.specs.Rows.{area_at};

use area_rows::{area_size, is_code};
use cells::wide;

// The size of an area's image: 0 unless it is kept.
pub(crate) fn kept_size(areas: &[u32], i: usize) -> usize
    ensures { result ≡ the.kept_size (area_at areas.now i) }
{
    if is_code(areas, i) {
        return wide(area_size(areas, i));
    }
    0
}

// Whether an area is kept.
pub(crate) fn is_kept(areas: &[u32], i: usize) -> bool
    ensures { result ≡ the.kept (area_at areas.now i) }
{
    1 <= kept_size(areas, i)
}
