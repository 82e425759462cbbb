// What is answered to a module that is to be converted, and the answer as numbers: an enum cannot cross over to C.
#![tactic(auto)]

ghost use Rattle.std.specs.Prelude.{◌≡◌};
ghost use Rattle.convert_answer.specs.Converts.{told};
ghost use Rattle.convert_answer.specs.Numbers.{convert_numbers};

// A refusal with its number and place; where the reading stopped, with the reason and the place of the halt; or how many bytes were written.
#[derive(Clone, Copy)]
pub enum Converted {
    Refusal {
        number: u32,
        place: usize,
    },
    Stopped {
        place: usize,
        reason: u8,
        halt: usize,
    },
    Bytes {
        count: usize,
    },
}

// A refusal's number and place, all else 0; or where the reading stopped, its reason and the place of the halt; or how many bytes were written.
#[repr(C)]
#[derive(Clone, Copy)]
pub struct ConvertNumbers {
    pub refusal: u32,
    pub reason: u32,
    pub place: usize,
    pub halt: usize,
    pub bytes: usize,
}

// A reason in 32 bits.
fn wide(reason: u8) -> u32
    ensures { result ≡ reason }
{
    reason as u32
}

// The numbers of an answer.
pub fn convert_numbers(answer: Converted) -> ConvertNumbers
    ensures { result ≡ convert_numbers (told answer) }
{
    match answer {
        Converted::Refusal { number, place } => ConvertNumbers {
            refusal: number,
            reason: 0,
            place: place,
            halt: 0,
            bytes: 0,
        },
        Converted::Stopped {
            place,
            reason,
            halt,
        } => ConvertNumbers {
            refusal: 0,
            reason: wide(reason),
            place: place,
            halt: halt,
            bytes: 0,
        },
        Converted::Bytes { count } => ConvertNumbers {
            refusal: 0,
            reason: 0,
            place: 0,
            halt: 0,
            bytes: count,
        },
    }
}
