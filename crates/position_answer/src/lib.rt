// What is answered about one position, and the same as numbers: an enum cannot cross over to C.
#![tactic(auto)]

ghost use Rattle.std.specs.Prelude.{◌≡◌};
ghost use Rattle.position_answer.specs.Answer.{told};
ghost use Rattle.position_answer.specs.Numbers.{explain_numbers};

// A refusal with its number and place; that no line writes the position; or the value and mask that the last line to write it left there, and the place of its T.
#[derive(Clone, Copy)]
pub enum Explained {
    Refused { number: u32, place: usize },
    Unwritten,
    Wrote { value: u8, mask: u8, place: u32 },
}

// A refusal's number and its place; or 0, whether a line wrote the position, the place of its T, and the value and mask that it left there.
#[repr(C)]
#[derive(Clone, Copy)]
pub struct ExplainNumbers {
    pub refusal: u32,
    pub written: u32,
    pub place: usize,
    pub value: u32,
    pub mask: u32,
}

// The numbers of an answer.
pub fn explain_numbers(e: Explained) -> ExplainNumbers
    ensures { result ≡ explain_numbers (told e) }
{
    match e {
        Explained::Refused { number, place } => ExplainNumbers {
            refusal: number,
            written: 0,
            place: place,
            value: 0,
            mask: 0,
        },
        Explained::Unwritten => ExplainNumbers {
            refusal: 0,
            written: 0,
            place: 0,
            value: 0,
            mask: 0,
        },
        Explained::Wrote { value, mask, place } => ExplainNumbers {
            refusal: 0,
            written: 1,
            place: place as usize,
            value: value as u32,
            mask: mask as u32,
        },
    }
}
