// An area's image, among those of the kept ones.
ghost use Rattle.std.specs.Prelude.{◌≡◌};
ghost use Rattle.laws.specs.Rows.{areas_in};
ghost use Rattle.kept_areas.specs.Images.{image_in};

use crate::kept::kept_size;
use row_parts::part;

// Area i's values, or its masks, among n areas' images: an empty part where they do not fit.
pub fn area_image<'a>(image: &'a [u8], areas: &[u32], n: usize, i: usize) -> &'a [u8]
    ensures { result.now ≡ image_in image.now (areas_in areas.now n) i }
{
    if n <= i {
        return &image[..0];
    }
    let mut start = 0;
    for j in 0..i {
        let size = kept_size(areas, j);
        if image.len() - start < size {
            return &image[..0];
        }
        start += size;
    }
    part(image, start, kept_size(areas, i))
}
