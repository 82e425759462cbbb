// The program's arguments: names, options before a `--`, and `--as NAME FILE`, a file that is shown under another name.
ghost use Rattle.std.specs.Prelude.{◌≤◌};

use std::env::Env;

// What the arguments ask for: the program's work on the names, where the options end before an argument's number; the
// help; or what is not known, by the argument's number.
#[derive(Clone, Copy)]
pub enum Request {
    Work(usize),
    Help,
    Unknown(usize),
}

// What an argument is.
#[derive(Clone, Copy)]
enum Word {
    Name,
    Help,
    End,
    As,
    Unknown,
}

// A file by its argument's number, the argument under which it is shown, and how many more arguments that took.
#[derive(Clone, Copy)]
pub struct Operand {
    pub shown: usize,
    pub file: usize,
    pub more: usize,
}

// What a word is that begins with a dash.
fn option(word: &[u8]) -> Word {
    match word {
        b"-" => Word::Name,
        b"--" => Word::End,
        b"--as" => Word::As,
        b"-h" | b"--help" => Word::Help,
        _ => Word::Unknown,
    }
}

// What an argument is.
fn word_at(rt: &impl Env, i: usize) -> Word {
    let mut room = [0u8; 8];
    let n = host::argument_or_none(rt, i, &mut room);
    if room[0] != b'-' {
        return Word::Name;
    }
    option(&room[..n])
}

// What the arguments from one on ask for: the first that is neither a name nor an --as decides.
pub fn asked_from(rt: &impl Env, first: usize, count: usize) -> Request {
    let mut i = first;
    while i < count {
        match word_at(rt, i) {
            Word::Name => i += 1,
            Word::As if 2 < count - i => i += 3,
            Word::As | Word::Unknown => return Request::Unknown(i),
            Word::Help => return Request::Help,
            Word::End => return Request::Work(i),
        }
    }
    Request::Work(count)
}

// What all arguments ask for.
pub fn asked(rt: &impl Env, count: usize) -> Request {
    asked_from(rt, 1, count)
}

// Whether the first argument asks why: --why.
pub fn asks_why(rt: &impl Env, count: usize) -> bool {
    let mut room = [0u8; 8];
    let n = host::argument_or_none(rt, 1, &mut room);
    1 < count && matches!(&room[..n], b"--why")
}

// The file that argument i names, alone or with the two behind it; the options end before argument `end`.
pub fn operand_at(rt: &impl Env, i: usize, end: usize) -> Operand
    ensures { result.more ≤ 2 }
{
    if 2 < end.saturating_sub(i) && matches!(word_at(rt, i), Word::As) {
        return Operand {
            shown: i + 1,
            file: i + 2,
            more: 2,
        };
    }
    Operand {
        shown: i,
        file: i,
        more: 0,
    }
}
