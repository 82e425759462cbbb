// The fragments of an R line: mode, entry and index, as many as can be read.
ghost use Rattle.std.specs.Prelude.{◌≡◌};
ghost use Rattle.format.specs.Pairs.{next_index, fragment};
ghost use Rattle.numbers.specs.Told.{told};
ghost use Rattle.fragments.specs.Fragments.{told_fragment, FragmentsRead};

use list_bytes::put;
use lists::Run;
use modes::parse_extended_mode;
use numbers::{Halt, Parsed, Read, Reason};
use scan::Kind;
use usual_fragment::{Fragment, usual_fragment};

// An index behind blanks.
pub fn next_index(t: &[u8], at: usize, radix: u8, big: bool) -> Parsed<u32>
    ensures { told result ≡ next_index radix big t.now at }
{
    let a = scan::past_kind(t, at, Kind::Blank);
    if a == at {
        return Err(Halt {
            reason: Reason::Other,
            at,
        });
    }
    joined::parse_area_index(t, a, radix, big)
}

// Mode, entry and index, each behind blanks.
pub fn fragment_at(t: &[u8], at: usize, radix: u8, big: bool) -> Parsed<Fragment>
    ensures { told_fragment result ≡ fragment radix big t.now at }
{
    let a = scan::past_kind(t, at, Kind::Blank);
    if a == at {
        return Err(Halt {
            reason: Reason::Other,
            at,
        });
    }
    let mode = parse_extended_mode(t, a, radix)?;
    let entry = quick_numbers::next_byte(t, mode.next, radix)?;
    let index = next_index(t, entry.next, radix, big)?;
    Ok(Read {
        value: Fragment {
            mode: mode.value,
            entry: entry.value,
            index: index.value,
        },
        next: index.next,
    })
}

// The same. The usual form is read at once, and behind the end nothing is looked for.
fn next_fragment(t: &[u8], at: usize, radix: u8, big: bool) -> Parsed<Fragment>
    ensures { told_fragment result ≡ fragment radix big t.now at }
{
    if t.len() <= at {
        return Err(Halt {
            reason: Reason::Other,
            at,
        });
    }
    match usual_fragment(t, at, radix, big) {
        Some(f) => Ok(f),
        None => fragment_at(t, at, radix, big),
    }
}

// As many fragments as can be read: a bad one keeps those before it. The first 64 are written, a column each for modes, entries and indexes; all are counted.
pub fn parse_reloc_frag(
    t: &[u8],
    at: usize,
    radix: u8,
    big: bool,
    modes: &mut [u32; 64],
    entries: &mut [u32; 64],
    indexes: &mut [u32; 64],
) -> Run
    ensures { FragmentsRead radix big t.now at result modes.old entries.old indexes.old modes.new entries.new indexes.new }
{
    let mut p = at;
    for n in 0..t.len() {
        let Ok(f) = next_fragment(t, p, radix, big) else {
            return Run { count: n, end: p };
        };
        put(modes, n, f.value.mode);
        put(entries, n, f.value.entry);
        put(indexes, n, f.value.index);
        p = f.next;
    }
    Run {
        count: t.len(),
        end: p,
    }
}
