// What C and Rust link to read the T and R records of a text and to write a module's text from rows, over numbers and
// slices. Both functions answer for every input and ask nothing of their caller.
#![tactic(auto)]

ghost use Rattle.exports_write.specs.Linked.{Reads, WritesOut};
ghost use Rattle.pairs_answer.specs.Told.{held};
ghost use Rattle.row_texts.specs.RowRecords.{lent};

use pairs_answer::{PairsNumbers, pairs_numbers};
use writer::write_module;
use written_answer::{WrittenNumbers, form_for, written_numbers};

// The T and R records of a text, into three lent buffers.
#[unsafe(no_mangle)]
pub extern "C" fn gatecobalt_read_pairs(
    text: &[u8],
    pairs: &mut [u32],
    content: &mut [u8],
    fragments: &mut [u32],
) -> PairsNumbers
    ensures { Reads text.now (held pairs.old content.old fragments.old) result (held pairs.new content.new fragments.new) }
{
    pairs_numbers(records::read_pairs(text, pairs, content, fragments))
}

// The text of so many areas, symbols and pairs, into a lent buffer: an X header with this order and so many bytes in an address, and a line for each record.
#[unsafe(no_mangle)]
pub extern "C" fn gatecobalt_write(
    big: bool,
    width: u32,
    text: &[u8],
    areas: &[u32],
    na: usize,
    symbols: &[u32],
    ns: usize,
    pairs: &[u32],
    np: usize,
    content: &[u8],
    fragments: &[u32],
    out: &mut [u8],
) -> WrittenNumbers
    ensures { WritesOut big width (lent text.now areas.now na symbols.now ns pairs.now np content.now fragments.now) out.old result out.new }
{
    let Some(form) = form_for(big, width) else {
        return WrittenNumbers {
            refusal: 15,
            bytes: 0,
        };
    };
    written_numbers(write_module(
        form, text, areas, na, symbols, ns, pairs, np, content, fragments, out,
    ))
}
