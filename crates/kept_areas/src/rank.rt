// An area's id: its rank among the kept ones.
ghost use Rattle.std.specs.Prelude.{◌≡◌};
ghost use Rattle.format.specs.Tables as the;
ghost use Rattle.laws.specs.Rows.{areas_in};
ghost use Rattle.kept_areas.specs.Told.{told_id};

use crate::kept::is_kept;

// Area i's id among n areas, if it is kept.
pub fn area_id(areas: &[u32], n: usize, i: usize) -> Option<usize>
    ensures { told_id result ≡ the.rank 0 (areas_in areas.now n) i }
{
    if n <= i {
        return None;
    }
    let mut k = 0;
    for j in 0..i {
        k += usize::from(is_kept(areas, j));
    }
    is_kept(areas, i).then_some(k)
}
