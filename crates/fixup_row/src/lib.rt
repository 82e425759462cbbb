// The numbers of a fixup row, stored at a place.
#![tactic(auto)]

ghost use Rattle.std.specs.Prelude.{◌≡◌};
ghost use Rattle.std.proofs.lemmas.List.Edits.{sets};
ghost use Rattle.fixup_row.specs.Row.{row_of};

use cells::{at, copy_u32s};
use classes::size_on_site;
use references::Reference;
use rooms::FIXUP_WIDTH;
use sites::Site;

// The row of the i-th fragment at the position p, which refers to t; past the end nothing changes.
pub fn put_row(
    rows: &mut [u32],
    to: usize,
    site: Site,
    ms: &[u32],
    ns: &[u32],
    t: Reference,
    i: usize,
    p: u32,
)
    ensures { rows.new ≡ sets rows.old to (row_of site ms.now ns.now t i p) }
{
    let mode = at(ms, i);
    let size = size_on_site(mode);
    let n = at(ns, i);
    let row = [
        site.id, p, size, mode, t.outside, t.what, t.length, t.value, n,
    ];
    copy_u32s(rows, to, &row, FIXUP_WIDTH);
}
