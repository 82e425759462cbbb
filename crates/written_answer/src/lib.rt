// The answer to rows that are to be written: its type, its numbers for C, and the form that a caller's numbers ask for.
#![tactic(auto)]

ghost use Rattle.std.specs.Prelude.{◌≡◌};
ghost use Rattle.written_answer.specs.Answer.{told};
ghost use Rattle.written_answer.specs.Numbers.{FormIs, written_numbers, x_form};

use header::{Form, Width};

// Why rows are not written, by its number, and the place.
#[derive(Clone, Copy)]
pub struct Refusal {
    pub number: u32,
    pub place: usize,
}

// 15 or 16; or 0 and how many bytes were written.
#[repr(C)]
#[derive(Clone, Copy)]
pub struct WrittenNumbers {
    pub refusal: u32,
    pub bytes: usize,
}

// The numbers of an answer about a written text: how many bytes were written, or a refusal.
pub fn written_numbers(answer: Result<usize, Refusal>) -> WrittenNumbers
    ensures { result ≡ written_numbers (told answer) }
{
    match answer {
        Err(why) => WrittenNumbers {
            refusal: why.number,
            bytes: 0,
        },
        Ok(count) => WrittenNumbers {
            refusal: 0,
            bytes: count,
        },
    }
}

// An X form.
fn x_form(big: bool, width: Width) -> Form
    ensures { result ≡ x_form big width }
{
    Form {
        radix: 16,
        big,
        width,
    }
}

// An X form with this order and so many bytes in an address, if they are 2, 3 or 4.
pub fn form_for(big: bool, width: u32) -> Option<Form>
    ensures { FormIs big width result }
{
    match width {
        2 => Some(x_form(big, Width::Two)),
        3 => Some(x_form(big, Width::Three)),
        4 => Some(x_form(big, Width::Four)),
        _ => None,
    }
}
