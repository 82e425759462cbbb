// The R line: index 0, the area's index, the fragments.
ghost use Rattle.std.specs.Prelude.{◌≡◌};
ghost use Rattle.format.specs.Pairs.{zero_index, area_part, relocation_line};
ghost use Rattle.numbers.specs.Told.{told};
ghost use Rattle.header.specs.Told.{form_of};
ghost use Rattle.pair_line.specs.Pairs.{Relocations};

use crate::usual::usual_zero;
use fragments::{next_index, parse_reloc_frag};
use header::Form;
use numbers::{Halt, Parsed, Reason};
use scan::Kind;
use zero_only::zero_only;

// An R line that was read: its area, the count of its fragments, and the bytes used.
#[derive(Clone, Copy)]
pub struct Relocation {
    pub area: u32,
    pub count: usize,
    pub used: usize,
}

// An index that is 0.
fn zero_index(t: &[u8], at: usize, radix: u8, big: bool) -> Parsed<u32>
    ensures { told result ≡ zero_index radix big t.now at }
{
    let other = Halt {
        reason: Reason::Other,
        at,
    };
    zero_only(joined::parse_area_index(t, at, radix, big), other)
}

// R, index 0, the area's index. The usual form is read at once.
pub fn area_part(t: &[u8], form: Form) -> Parsed<u32>
    ensures { told result ≡ area_part (form_of form) t.now 0 }
{
    if usual_zero(t, form.radix) {
        return joined::parse_area_index(t, 8, form.radix, form.big);
    }
    let next = fields::lead_at(t, 0, b"R")?;
    let zero = zero_index(t, next, form.radix, form.big)?;
    next_index(t, zero.next, form.radix, form.big)
}

// R, index 0, the area's index, the fragments; blanks may trail.
pub fn parse_reloc_line(
    t: &[u8],
    form: Form,
    modes: &mut [u32; 64],
    entries: &mut [u32; 64],
    indexes: &mut [u32; 64],
) -> Result<Relocation, Halt>
    ensures { Relocations (relocation_line (form_of form) t.now 0) result modes.old entries.old indexes.old modes.new entries.new indexes.new }
{
    let area = area_part(t, form)?;
    let run = parse_reloc_frag(t, area.next, form.radix, form.big, modes, entries, indexes);
    Ok(Relocation {
        area: area.value,
        count: run.count,
        used: scan::past_kind(t, run.end, Kind::Blank),
    })
}
