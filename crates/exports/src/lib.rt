// What C and Rust link: both readings, over numbers and slices. Every function answers for every input; none asks anything of its caller.
#![tactic(auto)]

ghost use Rattle.std.specs.Prelude.{true, false};
ghost use Rattle.answer.specs.Answer.{held};
ghost use Rattle.exports.specs.Answers.{Answers, EndedAnswers};

use reading_numbers::{EndedNumbers, ReadNumbers, ended_numbers, read_numbers};

// The plain reading of a text into five lent buffers.
#[unsafe(no_mangle)]
pub extern "C" fn gatecobalt_read_plain(
    text: &[u8],
    areas: &mut [u32],
    symbols: &mut [u32],
    values: &mut [u8],
    masks: &mut [u8],
    fixups: &mut [u32],
) -> ReadNumbers
    ensures { Answers false text.now (held areas.old symbols.old values.old masks.old fixups.old) result (held areas.new symbols.new values.new masks.new fixups.new) }
{
    read_numbers(reading::read_plain(text, areas, symbols, values, masks, fixups))
}

// The ended reading of a text into five lent buffers, with the halt of one that stopped and what the H line says.
#[unsafe(no_mangle)]
pub extern "C" fn gatecobalt_read_ended(
    text: &[u8],
    areas: &mut [u32],
    symbols: &mut [u32],
    values: &mut [u8],
    masks: &mut [u8],
    fixups: &mut [u32],
) -> EndedNumbers
    ensures { EndedAnswers text.now (held areas.old symbols.old values.old masks.old fixups.old) result (held areas.new symbols.new values.new masks.new fixups.new) }
{
    ended_numbers(ended::read_ended(text, areas, symbols, values, masks, fixups))
}
