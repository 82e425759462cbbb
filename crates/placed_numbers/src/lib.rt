// What is answered about placed code, as numbers: an enum cannot cross over to C.
#![tactic(auto)]

ghost use Rattle.std.specs.Prelude.{◌≡◌};
ghost use Rattle.format.specs.Outcome.{fine, refused};
ghost use Rattle.placed_numbers.specs.Numbers.{place_numbers};

// A refusal's number and its place; or 0, and how many bytes were placed.
#[repr(C)]
#[derive(Clone, Copy)]
pub struct PlaceNumbers {
    pub refusal: u32,
    pub place: usize,
    pub bytes: usize,
}

// The numbers of a refusal.
pub fn refusal_numbers(number: u32, place: usize) -> PlaceNumbers
    ensures { result ≡ place_numbers (refused number place) }
{
    PlaceNumbers {
        refusal: number,
        place: place,
        bytes: 0,
    }
}

// The numbers of code that was placed, so many bytes.
pub fn code_numbers(bytes: usize) -> PlaceNumbers
    ensures { result ≡ place_numbers (fine bytes) }
{
    PlaceNumbers {
        refusal: 0,
        place: 0,
        bytes: bytes,
    }
}
