// The answers about headers and targets as numbers.
ghost use Rattle.std.specs.Prelude.{◌≡◌, suc};
ghost use Rattle.target_asked.specs.Asked as targets;
ghost use Rattle.header.specs.Told.{told_head, more_of};
ghost use Rattle.format.specs.Rows.{flag};
ghost use Rattle.answer_numbers.specs.Numbers.{header_numbers, target_numbers};

use header::{Head, Width};
use target_asked::Refusal;

// What a header tells: 4 if there is none; or 0, the radix, 1 for big, and the address length.
#[repr(C)]
#[derive(Clone, Copy)]
pub struct HeaderNumbers {
    pub refusal: u32,
    pub radix: u32,
    pub big: u32,
    pub width: u32,
}

// A target's answer: a refusal's number; or 0 and the target.
#[repr(C)]
#[derive(Clone, Copy)]
pub struct TargetNumbers {
    pub refusal: u32,
    pub target: u64,
}

// The numbers of a target's answer.
pub fn target_numbers(answer: Result<u64, Refusal>) -> TargetNumbers
    ensures { result ≡ target_numbers (targets.told answer) }
{
    match answer {
        Ok(t) => TargetNumbers {
            refusal: 0,
            target: t,
        },
        Err(Refusal { number, place: _ }) => TargetNumbers {
            refusal: number,
            target: 0,
        },
    }
}

fn wide(x: u8) -> u32
    ensures { result ≡ x }
{
    x as u32
}

// 1 for true.
fn flag_of(x: bool) -> u32
    ensures { result ≡ flag x }
{
    if x { 1 } else { 0 }
}

// How many bytes an address has.
fn address_length(width: Width) -> u32
    ensures { result ≡ suc (more_of width) }
{
    match width {
        Width::Two => 2,
        Width::Three => 3,
        Width::Four => 4,
    }
}

// The numbers of a header, if there is one.
pub fn header_numbers(head: Head) -> HeaderNumbers
    ensures { result ≡ header_numbers (told_head head) }
{
    let Head::Found { form, next: _ } = head else {
        return HeaderNumbers {
            refusal: 4,
            radix: 0,
            big: 0,
            width: 0,
        };
    };
    let width = form.width;
    HeaderNumbers {
        refusal: 0,
        radix: wide(form.radix),
        big: flag_of(form.big),
        width: address_length(width),
    }
}
