// A line of group one: its letter says which.
ghost use Rattle.std.specs.Prelude.{◌≡◌};
ghost use Rattle.format.specs.Entries.{ignored_line, entry_line};
ghost use Rattle.header.specs.Told.{form_of};
ghost use Rattle.entry_line.specs.Told.{told_entry};

use crate::Entry;
use crate::areas::parse_area;
use crate::symbols::parse_symdefref;
use entry_sort::{Letter, letter_of};
use header::Form;
use numbers::{Parsed, Read};

// An O, H or M line.
fn ignored_entry(t: &[u8]) -> Parsed<Entry>
    ensures { told_entry result ≡ ignored_line t.now 0 }
{
    let next = fields::ignore_line(t, b"OHM")?;
    Ok(Read {
        value: Entry::Ignored,
        next,
    })
}

// A line of group one.
pub fn parse_entry(t: &[u8], form: Form) -> Parsed<Entry>
    ensures { told_entry result ≡ entry_line (form_of form) t.now 0 }
{
    match letter_of(scan::byte_at(t, 0)) {
        Letter::Area => parse_area(t, form),
        Letter::Symbol => parse_symdefref(t, form),
        Letter::Other => ignored_entry(t),
    }
}
