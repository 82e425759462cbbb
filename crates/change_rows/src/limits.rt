// What the walks over two modules can take: any two that were read are within it.
ghost use Rattle.std.specs.Prelude.{◌≡◌};
ghost use Rattle.change_rows.specs.Room.{few_of, paired_masks};

use rooms::IMAGE_ROOM;

// Whether at most 2^29 rows stand before, and each side has at most 1,024.
pub fn few(rows: usize, m: usize, n: usize) -> bool
    ensures { result ≡ few_of rows m n }
{
    if 536870912 < rows {
        return false;
    }
    if 1024 < m {
        return false;
    }
    n <= 1024
}

// Whether an image has at most 65,536 positions, and a mask for each.
pub fn paired_masks(values: &[u8], masks: &[u8]) -> bool
    ensures { result ≡ paired_masks values.now masks.now }
{
    if IMAGE_ROOM < values.len() {
        return false;
    }
    masks.len() == values.len()
}
