// Replays answers of the unchanged Rust: classes, mode steps and targets, one a line, and says how many there were and how many differ.
// The sample in `stdin` was printed by `oracle/targets/run record 1`: every mode's class and size, 512 mode steps on four random entries,
// and a target of every mode with a random order, number, address and bytes, half of the numbers and a quarter of the addresses at edges.
#![tactic(auto)]

ghost use Rattle.std.specs.Prelude.{◌<◌, ◌≤◌};

mod hex;
mod lines;

// How many answers were replayed, and how many of them differ.
#[derive(Clone, Copy)]
struct Sum {
    answers: u64,
    differ: u64,
}

// Where the next line starts.
fn behind(length: usize, at: usize, width: usize) -> usize
    requires { (at < length) × (1 ≤ width) }
    ensures { (at < result) × (result ≤ length) }
{
    if length - at < width {
        length
    } else {
        at + width
    }
}

// Every line of a text, from the first on.
fn replay(text: &[u8]) -> Sum {
    let mut answers: u64 = 0;
    let mut differ: u64 = 0;
    let mut at: usize = 0;
    while at < text.len() {
        let line = lines::held(&text[at..]);
        answers += 1;
        differ += line.differs;
        at = behind(text.len(), at, line.width);
    }
    Sum { answers, differ }
}

// A room of zeros: made by itself, so that no proof has so many of them in sight.
fn empty_room() -> [u8; 262144] {
    [0; 262144]
}

// Reads the sample, replays it and says what came out.
fn main() {
    let mut text = empty_room();
    let n = io::read_full(0, &mut text);
    let sum = replay(&text[..n]);
    io::print_decimal(1, sum.answers);
    io::write_all(1, b" answers, ");
    io::print_decimal(1, sum.differ);
    io::write_all(1, b" differ\n");
}
