// The row of a fragment, behind the rows that are there.
ghost use Rattle.std.specs.Prelude.{◌≤◌, length};
ghost use Rattle.fixups.specs.Walk.{to_reference, Added};

use fixup_row::put_row;
use references::{Reference, Refers};
use rooms::FIXUP_WIDTH;
use row_count::one_more;
use sites::Site;

// The row of the i-th fragment: 12, 13, or one row more.
fn write_row(
    site: Site,
    ms: &[u32],
    ns: &[u32],
    t: Reference,
    i: usize,
    p: u32,
    rows: &mut [u32],
    k: usize,
) -> Result<usize, u32>
    requires { (k ≤ 1024) × (9216 ≤ length rows.old) }
    ensures { Added site ms.now ns.now (to_reference t) i p k rows.old result rows.new }
{
    let x = one_more(i, site.made, k)?;
    put_row(rows, FIXUP_WIDTH * k, site, ms, ns, t, i, p);
    Ok(x)
}

// A row for what the i-th fragment refers to, if there is a reference.
pub(crate) fn add(
    site: Site,
    ms: &[u32],
    ns: &[u32],
    to: Refers,
    i: usize,
    p: u32,
    rows: &mut [u32],
    k: usize,
) -> Result<usize, u32>
    requires { (k ≤ 1024) × (9216 ≤ length rows.old) }
    ensures { Added site ms.now ns.now to i p k rows.old result rows.new }
{
    match to {
        Refers::Missing => Err(11),
        Refers::Nothing => Ok(k),
        Refers::To(t) => write_row(site, ms, ns, t, i, p, rows, k),
    }
}
