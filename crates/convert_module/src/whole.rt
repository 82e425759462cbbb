// The whole: a module read as one of any radix, then written if it was read to its last byte.
ghost use Rattle.std.specs.Prelude.{length};
ghost use Rattle.convert_answer.specs.Converts.{Converts, told};
ghost use Rattle.convert_module.specs.Kept.{Judged, Roomy};

use crate::kept::write_kept;
use crate::stop::stopped_at;
use answer::Verdict;
use convert_answer::Converted;
use header::Head;
use reading::read_any;
use rooms::{AREA_ROOM, FIXUP_ROOM, IMAGE_ROOM, SYMBOL_ROOM};

// By the verdict of a module that was read. Such a text has a header.
fn judge(
    text: &[u8],
    verdict: Verdict,
    areas: &[u32],
    na: usize,
    symbols: &[u32],
    ns: usize,
    out: &mut [u8],
) -> Converted
    requires { Judged text.now areas.now na symbols.now ns verdict }
    ensures { Converts text.now out.old (told result) out.new }
{
    let Head::Found { form, next } = header::format_spec(text) else {
        return Converted::Refusal {
            number: 4,
            place: 0,
        };
    };
    let head = next + scan::line_ending(text, next);
    match verdict {
        Verdict::Stopped { place } => stopped_at(text, head, form, place),
        Verdict::Finished => write_kept(text, form, areas, na, symbols, ns, out),
    }
}

// A module read into lent arrays, and by its verdict.
fn convert_with(
    text: &[u8],
    areas: &mut [u32],
    symbols: &mut [u32],
    values: &mut [u8],
    masks: &mut [u8],
    fixups: &mut [u32],
    out: &mut [u8],
) -> Converted
    requires { Roomy (length areas.old) (length symbols.old) (length values.old) (length masks.old) (length fixups.old) }
    ensures { Converts text.now out.old (told result) out.new }
{
    match read_any(text, areas, symbols, values, masks, fixups) {
        Err(refusal) => Converted::Refusal {
            number: refusal.number,
            place: refusal.place,
        },
        Ok(told) => judge(
            text,
            told.verdict,
            areas,
            told.counts.areas,
            symbols,
            told.counts.symbols,
            out,
        ),
    }
}

// A module of any radix written as X: the refusals of the reading; where it stopped; 15 where the text would be too long, then 16
// where the buffer has no room for it.
pub fn convert(text: &[u8], out: &mut [u8]) -> Converted
    ensures { Converts text.now out.old (told result) out.new }
{
    let mut areas = [0u32; AREA_ROOM];
    let mut symbols = [0u32; SYMBOL_ROOM];
    let mut values = [0u8; IMAGE_ROOM];
    let mut masks = [0u8; IMAGE_ROOM];
    let mut fixups = [0u32; FIXUP_ROOM];
    convert_with(
        text,
        &mut areas,
        &mut symbols,
        &mut values,
        &mut masks,
        &mut fixups,
        out,
    )
}
