// What a comparison of two texts answers, and the same as numbers: a Result cannot cross over to C.
#![tactic(auto)]

ghost use Rattle.std.specs.Prelude.{◌≡◌, ◌*◌, leb};
ghost use Rattle.difference.specs.Rows.{change_columns};
ghost use Rattle.change_answer.specs.Answer.{side_of, told_of};
ghost use Rattle.change_answer.specs.Numbers.{changed_numbers};

// Whose refusal it is: of both texts, of the older, or of the newer.
#[derive(Clone, Copy, PartialEq, Eq)]
pub enum Whose {
    Both,
    Older,
    Newer,
}

// A refusal: whose it is, its number, and the place that it speaks of.
#[derive(Clone, Copy)]
pub struct Refused {
    pub whose: Whose,
    pub number: u32,
    pub place: usize,
}

// What a comparison answers: how many rows there are, or a refusal.
pub type Told = Result<usize, Refused>;

// The answer: a refusal's number, 1 if it is the older text's, 2 if it is the newer's, else 0, and its place; or 0 and how
// many rows there are.
#[repr(C)]
#[derive(Clone, Copy)]
pub struct ChangedNumbers {
    pub refusal: u32,
    pub side: u32,
    pub place: usize,
    pub rows: usize,
}

// Whether a list of so many numbers has room for so many rows.
pub fn has_room(numbers: usize, rows: usize) -> bool
    ensures { result ≡ leb (change_columns * rows) numbers }
{
    rows <= numbers / 8
}

// The number of a side: 1 for the older, 2 for the newer, 0 for both.
fn side(whose: Whose) -> u32
    ensures { result ≡ side_of whose }
{
    match whose {
        Whose::Both => 0,
        Whose::Older => 1,
        Whose::Newer => 2,
    }
}

// The numbers of an answer.
pub fn changed_numbers(told: Told) -> ChangedNumbers
    ensures { result ≡ changed_numbers (told_of told) }
{
    match told {
        Ok(rows) => ChangedNumbers {
            refusal: 0,
            side: 0,
            place: 0,
            rows,
        },
        Err(refused) => ChangedNumbers {
            refusal: refused.number,
            side: side(refused.whose),
            place: refused.place,
            rows: 0,
        },
    }
}
