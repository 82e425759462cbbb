// Group two behind the tables, over images of two sizes: the large ones are made only where the small ones are too short.
ghost use Rattle.std.specs.Prelude.{◌≡◌, ◌≤◌, length};
ghost use Rattle.header.specs.Told.{form_of};
ghost use Rattle.group_start.specs.Start.{starting_of};
ghost use Rattle.answer.specs.Answer.{held};
ghost use Rattle.way_in.specs.WayIn.{Rooms};
ghost use Rattle.reading_lines.specs.Laid.{Begun, Blank, RestIs};

use crate::answers::{counts_of, refuse_two};
use crate::second::second_over;
use answer::{Answer, accept};
use group_start::starting;
use header::Form;
use kept_sizes::{Sizes, sizes_of};
use layout::{lay_images, lay_tables};
use rooms::{AREA_ROOM, FIXUP_ROOM, IMAGE_ROOM};
use tables::Found;
use turns::Paired;

// Over lent images of zeros. These and the rows are laid over the lent buffers once nothing is refused.
fn over_images(
    t: &[u8],
    found: Found,
    sizes: Sizes,
    form: Form,
    ended: bool,
    xs: &mut [u32; AREA_ROOM],
    ys: &[u32],
    vs: &mut [u8],
    ms: &mut [u8],
    areas: &mut [u32],
    symbols: &mut [u32],
    values: &mut [u8],
    masks: &mut [u8],
    fixups: &mut [u32],
) -> Answer
    requires { (Begun t.now xs.old found sizes) × (Rooms (length areas.old) (length symbols.old) (length values.old) (length masks.old) (length fixups.old)) × (Blank (starting_of found sizes.total).positions vs.old) × (Blank (starting_of found sizes.total).positions ms.old) }
    ensures { RestIs ended (form_of form) t.now found xs.old ys.now (held areas.old symbols.old values.old masks.old fixups.old) result (held areas.new symbols.new values.new masks.new fixups.new) }
{
    let start = starting(found, sizes.total);
    let mut rows = [0u32; FIXUP_ROOM];
    let two = second_over(t, start, form, ended, xs, ys, vs, ms, &mut rows);
    let Paired::All {
        lines,
        stop,
        fixups: k,
    } = two
    else {
        return refuse_two(two);
    };
    let counts = counts_of(found, sizes, lines, k);
    lay_tables(found.areas, found.symbols, xs, ys, areas, symbols);
    lay_images(
        sizes.total,
        k,
        sizes.kept,
        vs,
        ms,
        &rows,
        values,
        masks,
        fixups,
    );
    accept(counts, t.len(), stop)
}

// Nothing behind group one, and no positions: only the rows of areas and symbols are laid out, and no array is made.
fn tables_only(
    t: &[u8],
    found: Found,
    sizes: Sizes,
    form: Form,
    ended: bool,
    xs: &[u32; AREA_ROOM],
    ys: &[u32],
    areas: &mut [u32],
    symbols: &mut [u32],
    values: &mut [u8],
    masks: &mut [u8],
    fixups: &mut [u32],
) -> Answer
    requires { (Begun t.now xs.now found sizes) × (Rooms (length areas.old) (length symbols.old) (length values.old) (length masks.old) (length fixups.old)) × (sizes.total ≡ 0) × (length t.now ≤ found.next) }
    ensures { RestIs ended (form_of form) t.now found xs.now ys.now (held areas.old symbols.old values.old masks.old fixups.old) result (held areas.new symbols.new values.new masks.new fixups.new) }
{
    let counts = counts_of(found, sizes, 0, 0);
    lay_tables(found.areas, found.symbols, xs, ys, areas, symbols);
    accept(counts, t.len(), found.stop)
}

// Over images of its own, of at most 4,096 positions.
fn in_small(
    t: &[u8],
    found: Found,
    sizes: Sizes,
    form: Form,
    ended: bool,
    xs: &mut [u32; AREA_ROOM],
    ys: &[u32],
    areas: &mut [u32],
    symbols: &mut [u32],
    values: &mut [u8],
    masks: &mut [u8],
    fixups: &mut [u32],
) -> Answer
    requires { (Begun t.now xs.old found sizes) × (Rooms (length areas.old) (length symbols.old) (length values.old) (length masks.old) (length fixups.old)) × (sizes.total ≤ 4096) }
    ensures { RestIs ended (form_of form) t.now found xs.old ys.now (held areas.old symbols.old values.old masks.old fixups.old) result (held areas.new symbols.new values.new masks.new fixups.new) }
{
    let mut vs = [0u8; 4096];
    let mut ms = [0u8; 4096];
    over_images(
        t, found, sizes, form, ended, xs, ys, &mut vs, &mut ms, areas, symbols, values, masks,
        fixups,
    )
}

// The same, of any size that is not refused.
fn in_large(
    t: &[u8],
    found: Found,
    sizes: Sizes,
    form: Form,
    ended: bool,
    xs: &mut [u32; AREA_ROOM],
    ys: &[u32],
    areas: &mut [u32],
    symbols: &mut [u32],
    values: &mut [u8],
    masks: &mut [u8],
    fixups: &mut [u32],
) -> Answer
    requires { (Begun t.now xs.old found sizes) × (Rooms (length areas.old) (length symbols.old) (length values.old) (length masks.old) (length fixups.old)) }
    ensures { RestIs ended (form_of form) t.now found xs.old ys.now (held areas.old symbols.old values.old masks.old fixups.old) result (held areas.new symbols.new values.new masks.new fixups.new) }
{
    let mut vs = [0u8; IMAGE_ROOM];
    let mut ms = [0u8; IMAGE_ROOM];
    over_images(
        t, found, sizes, form, ended, xs, ys, &mut vs, &mut ms, areas, symbols, values, masks,
        fixups,
    )
}

// Over images of the size that is needed, or over none where there are no positions and nothing follows group one; a, s, v, m and f are lent for areas, symbols, values, masks and fixups.
pub(crate) fn rest(
    t: &[u8],
    found: Found,
    form: Form,
    ended: bool,
    xs: &mut [u32; AREA_ROOM],
    ys: &[u32],
    a: &mut [u32],
    s: &mut [u32],
    v: &mut [u8],
    m: &mut [u8],
    f: &mut [u32],
) -> Answer
    requires { (found.next ≤ length t.now) × (length t.now ≤ 65536) × (found.areas ≤ 64) × (found.symbols ≤ 1024) × (Rooms (length a.old) (length s.old) (length v.old) (length m.old) (length f.old)) }
    ensures { RestIs ended (form_of form) t.now found xs.old ys.now (held a.old s.old v.old m.old f.old) result (held a.new s.new v.new m.new f.new) }
{
    let sizes = sizes_of(xs, found.areas);
    if sizes.total == 0 {
        if t.len() <= found.next {
            return tables_only(t, found, sizes, form, ended, xs, ys, a, s, v, m, f);
        }
    }
    if sizes.total <= 4096 {
        return in_small(t, found, sizes, form, ended, xs, ys, a, s, v, m, f);
    }
    in_large(t, found, sizes, form, ended, xs, ys, a, s, v, m, f)
}
