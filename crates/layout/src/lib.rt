// What was read, laid over lent buffers: the rows of areas and symbols, the images, and the fixup rows area by area.
#![tactic(auto)]

ghost use Rattle.std.specs.Prelude.{◌≡◌, ◌≤◌};
ghost use Rattle.layout.specs.Out.{most, FixupsOut, TablesOut, ImagesOut};

use cells::{copy_bytes, copy_u32s};
use rooms::{AREA_ROOM, AREA_WIDTH, FIXUP_ROOM, SYMBOL_WIDTH};

// At most so many.
#[tactic(auto, unfolding(crate::specs::Out::most))]
fn at_most(m: usize, n: usize) -> usize
    ensures { (result ≡ most m n) × (result ≤ m) }
{
    n.min(m)
}

// The first k fixup rows, area by area; nothing where there are not as many, or no room for them.
fn copy_fixups(dst: &mut [u32], rows: &[u32; FIXUP_ROOM], k: usize, kept: usize)
    ensures { FixupsOut k kept rows.now dst.old dst.new }
{
    let n = at_most(64, kept);
    grouped::by_area(rows, k, n as u32, dst);
}

// The rows of so many areas and symbols, of 64 and 1,024 at most.
pub fn lay_tables(
    na: usize,
    ns: usize,
    xs: &[u32; AREA_ROOM],
    ys: &[u32],
    areas: &mut [u32],
    symbols: &mut [u32],
)
    ensures { TablesOut na ns xs.now ys.now areas.old symbols.old areas.new symbols.new }
{
    let a = at_most(64, na);
    let s = at_most(1024, ns);
    copy_u32s(areas, 0, xs, AREA_WIDTH * a);
    copy_u32s(symbols, 0, ys, SYMBOL_WIDTH * s)
}

// The images of so many positions, and k fixup rows of so many kept areas.
pub fn lay_images(
    positions: usize,
    k: usize,
    kept: usize,
    vs: &[u8],
    ms: &[u8],
    rows: &[u32; FIXUP_ROOM],
    values: &mut [u8],
    masks: &mut [u8],
    fixups: &mut [u32],
)
    ensures { ImagesOut positions k kept vs.now ms.now rows.now values.old masks.old fixups.old values.new masks.new fixups.new }
{
    copy_bytes(values, 0, vs, positions);
    copy_bytes(masks, 0, ms, positions);
    copy_fixups(fixups, rows, k, kept)
}
