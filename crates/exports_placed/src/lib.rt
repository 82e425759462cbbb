// What C and Rust link to place code: a module's code at chosen addresses, and whether code matches a pattern. Both answer for every input, and ask nothing of their caller.
#![tactic(auto)]

ghost use Rattle.code_match.specs.Match.{mismatch_from};
ghost use Rattle.exports_placed.specs.Places.{PlacesNumbers};
ghost use Rattle.placed_numbers.specs.Numbers.{place_numbers};
ghost use Rattle.placed_rows.specs.Placed.{told};
ghost use Rattle.std.specs.Prelude.{length, ◌≡◌};

use placed_numbers::{PlaceNumbers, code_numbers, refusal_numbers};
use placed_rows::Placed;

// The numbers of an answer.
fn place_numbers(p: Placed) -> PlaceNumbers
    ensures { result ≡ place_numbers (told p) }
{
    match p {
        Placed::Refusal { number, place } => refusal_numbers(number, place),
        Placed::Done { bytes } => code_numbers(bytes),
    }
}

// A module's code at addresses chosen for its kept areas by their ids and for its symbols by their indexes.
#[unsafe(no_mangle)]
pub extern "C" fn gatecobalt_place(
    text: &[u8],
    areas: &[u64],
    symbols: &[u64],
    out: &mut [u8],
) -> PlaceNumbers
    ensures { PlacesNumbers text.now areas.now symbols.now out.old result out.new }
{
    place_numbers(placed_code::place_code(text, areas, symbols, out))
}

// The first position at which code does not match a pattern; how many bytes there are where it does.
#[unsafe(no_mangle)]
pub extern "C" fn gatecobalt_mismatch(values: &[u8], masks: &[u8], code: &[u8]) -> usize
    ensures { result ≡ mismatch_from values.now masks.now code.now 0 (length code.now) }
{
    code_match::first_mismatch(values, masks, code)
}
