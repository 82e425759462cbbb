// What C and Rust link to follow one position: who wrote it last, as numbers. It answers for every input, and asks nothing of its caller.
#![tactic(auto)]

ghost use Rattle.last_writer.specs.LastWriter.{writer_in};
ghost use Rattle.position_answer.specs.Numbers.{explain_numbers};
ghost use Rattle.record_rows.specs.ReadPairs.{roomy};
ghost use Rattle.std.specs.Prelude.{true, ◌≡◌};

use position_answer::{ExplainNumbers, explain_numbers};

// Who wrote a position of the kept area with an id last, and what.
#[unsafe(no_mangle)]
pub extern "C" fn gatecobalt_explain(text: &[u8], id: u32, position: u32) -> ExplainNumbers
    ensures { result ≡ explain_numbers (writer_in true roomy text.now id position) }
{
    explain_numbers(one_position::explain(text, id, position))
}
