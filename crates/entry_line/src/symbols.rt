// The S line: `S name RefN` or `S name DefN`.
ghost use Rattle.std.specs.Prelude.{◌≡◌};
ghost use Rattle.format.specs.Entries.{value_of, symbol_of, symbol_line};
ghost use Rattle.header.specs.Told.{form_of};
ghost use Rattle.entry_line.specs.Told.{name_of, told_entry};

use crate::Entry;
use entry_parts::{Name, title};
use entry_sort::ref_or_def;
use header::Form;
use numbers::{Halt, Parsed, Read, Reason};
use scan::Kind;

// The symbol's value, at once behind Ref or Def.
fn value_of(t: &[u8], at: usize, form: Form, name: Name, is_ref: bool) -> Parsed<Entry>
    ensures { told_entry result ≡ value_of (form_of form) (name_of name.at name.len) is_ref t.now at }
{
    let number = quick_numbers::parse_number(t, at, form.radix)?;
    Ok(Read {
        value: Entry::Symbol {
            name: name.at,
            len: name.len,
            is_ref,
            value: number.value,
        },
        next: scan::past_kind(t, number.next, Kind::Blank),
    })
}

// ` RefN` or ` DefN`.
fn symbol_of(t: &[u8], at: usize, form: Form, name: Name) -> Parsed<Entry>
    ensures { told_entry result ≡ symbol_of (form_of form) (name_of name.at name.len) t.now at }
{
    let a = scan::past_kind(t, at, Kind::Blank);
    if a == at {
        return Err(Halt {
            reason: Reason::Other,
            at,
        });
    }
    let is_ref = ref_or_def(t, a)?;
    value_of(t, is_ref.next, form, name, is_ref.value)
}

// `S name RefN` or `S name DefN`; blanks may trail.
pub fn parse_symdefref(t: &[u8], form: Form) -> Parsed<Entry>
    ensures { told_entry result ≡ symbol_line (form_of form) t.now 0 }
{
    let name = title(t, b"S")?;
    symbol_of(t, name.next, form, name.value)
}
