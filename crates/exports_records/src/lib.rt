// What C and Rust link to write a module of any radix as X. It answers for every input, and asks nothing of its caller.
#![tactic(auto)]

ghost use Rattle.exports_records.specs.Converts.{ConvertsNumbers};

use convert_answer::{ConvertNumbers, convert_numbers};

// A module of any radix written as X into a lent buffer, if it was read to its last byte.
#[unsafe(no_mangle)]
pub extern "C" fn gatecobalt_convert(text: &[u8], out: &mut [u8]) -> ConvertNumbers
    ensures { ConvertsNumbers text.now out.old result out.new }
{
    convert_numbers(convert_module::convert(text, out))
}
