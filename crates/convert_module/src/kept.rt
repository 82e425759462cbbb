// A module that was read to its last byte, written from the rows of its areas and symbols and of its T and R records.
ghost use Rattle.std.specs.Prelude.{◌≡◌, length};
ghost use Rattle.header.specs.Told.{form_of};
ghost use Rattle.written_answer.specs.Answer as writing;
ghost use Rattle.convert_answer.specs.Converts.{Converts, told};
ghost use Rattle.convert_module.specs.Kept.{Whole};
ghost use Rattle.convert_module.specs.Written.{written};

use convert_answer::Converted;
use header::Form;
use records::read_any_pairs;
use writer::write_module;
use written_answer::Refusal;

// The writer's answer.
fn as_written(answer: Result<usize, Refusal>) -> Converted
    ensures { told result ≡ written (writing.told answer) }
{
    match answer {
        Err(why) => Converted::Refusal {
            number: why.number,
            place: why.place,
        },
        Ok(count) => Converted::Bytes { count: count },
    }
}

// The records read into lent arrays, then all rows written. A text that was read is not refused here.
fn write_with(
    text: &[u8],
    form: Form,
    areas: &[u32],
    na: usize,
    symbols: &[u32],
    ns: usize,
    pairs: &mut [u32],
    content: &mut [u8],
    fragments: &mut [u32],
    out: &mut [u8],
) -> Converted
    requires { (Whole text.now (form_of form) areas.now na symbols.now ns) × (length pairs.old ≡ 28672) × (length content.old ≡ 32768) × (length fragments.old ≡ 24576) }
    ensures { Converts text.now out.old (told result) out.new }
{
    match read_any_pairs(text, pairs, content, fragments) {
        Err(refusal) => Converted::Refusal {
            number: refusal.number,
            place: refusal.place,
        },
        Ok(counts) => as_written(write_module(
            form,
            text,
            areas,
            na,
            symbols,
            ns,
            pairs,
            counts.pairs,
            content,
            fragments,
            out,
        )),
    }
}

// The same, with arrays of its own for the records.
pub(crate) fn write_kept(
    text: &[u8],
    form: Form,
    areas: &[u32],
    na: usize,
    symbols: &[u32],
    ns: usize,
    out: &mut [u8],
) -> Converted
    requires { Whole text.now (form_of form) areas.now na symbols.now ns }
    ensures { Converts text.now out.old (told result) out.new }
{
    let mut pairs = [0u32; 28672];
    let mut content = [0u8; 32768];
    let mut fragments = [0u32; 24576];
    write_with(
        text,
        form,
        areas,
        na,
        symbols,
        ns,
        &mut pairs,
        &mut content,
        &mut fragments,
        out,
    )
}
