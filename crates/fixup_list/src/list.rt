// Lent slices of records. The checker's own walk does not cover a slice of structs: what takes or makes one is proved by
// hand, and is as thin as it can be.
ghost use Rattle.std.specs.Prelude.{◌≡◌, ◌≤◌, map, length};
ghost use Rattle.laws.specs.Rows.{fixups_in};
ghost use Rattle.fixup_rows.specs.Fixups.{told_fixup};

use crate::line::line;
use fixup_rows::{Fixup, fixup_at};

// Each record of the lent slice out of its row.
fn take_rows(list: &mut [Fixup], rows: &[u32])
    ensures { map told_fixup list.new ≡ fixups_in rows.now (length list.old) }
{
    for i in 0..list.len() {
        list[i] = fixup_at(rows, i);
    }
}

// The lines of the first n records, and whether they were written.
fn tell(name: &[u8], text: &[u8], list: &[Fixup], n: usize) -> bool
    requires { n ≤ length list.now }
{
    list[..n].iter().all(|f| line(name, text, *f))
}

// The lines of the first n fixups of a module's rows, of which there are no more than a module can have.
fn tell_rows(name: &[u8], text: &[u8], rows: &[u32], n: usize) -> bool
    requires { n ≤ 1024 }
{
    let mut list = [Fixup {
        home: 0,
        position: 0,
        size: 0,
        mode: 0,
        outside: 0,
        what: 0,
        length: 0,
        value: 0,
        number: 0,
    }; 1024];
    take_rows(&mut list, rows);
    tell(name, text, &list, n)
}

// The lines of the first n fixups of a module's rows, and whether they were written; nothing where n is more than 1,024.
pub fn tell_fixups(name: &[u8], text: &[u8], rows: &[u32], n: usize) -> bool {
    if 1024 < n {
        return false;
    }
    tell_rows(name, text, rows, n)
}
