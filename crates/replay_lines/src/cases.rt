// The cases of the sample, one a line.
ghost use Rattle.std.specs.Prelude.{◌≤◌};

use crate::answers::answer;
use crate::{Answer, Counts};
use numbers::Parsed;
use scan::Kind;

// A number of a case behind blanks, or the place where there is none.
fn number_at(t: &[u8], at: usize) -> Parsed<u32> {
    let a = scan::past_kind(t, at, Kind::Blank);
    quick_numbers::parse_number(t, a, 16)
}

// The eleven numbers of a case into what was lent, and the place behind them; or the length where they are not there.
fn numbers(t: &[u8], out: &mut [u32; 11]) -> usize {
    let mut p = 0;
    for slot in out.iter_mut() {
        let Ok(read) = number_at(t, p) else {
            return t.len();
        };
        *slot = read.value;
        p = read.next;
    }
    p
}

// The recorded answer among a case's numbers.
fn recorded(n: &[u32; 11]) -> Answer {
    Answer {
        taken: u64::from(n[4]),
        used: u64::from(n[5]),
        first: u64::from(n[6]),
        second: u64::from(n[7]),
        third: u64::from(n[8]),
        fourth: u64::from(n[9]),
        fifth: u64::from(n[10]),
    }
}

// A number of a case that is below 256.
fn small(n: u32) -> u8 {
    (n % 256) as u8
}

// What the reader of a case answers about the first bytes of what was lent.
fn answered(n: &[u32; 11], bytes: &[u8], count: usize) -> Answer {
    let radix = small(n[1]);
    let width = small(n[3]);
    let read = bytes.get(..count).unwrap_or(bytes);
    answer(n[0], read, radix, n[2] == 1, width)
}

// Whether the port answers a case as the Rust does.
fn agrees(t: &[u8]) -> bool {
    let mut n = [0u32; 11];
    let p = numbers(t, &mut n);
    let mut bytes = [0u8; 256];
    let run = lists::parse_byte_many(t, p, 16, &mut bytes);
    run.end == t.len() && answered(&n, &bytes, run.count) == recorded(&n)
}

// 1 where a case differs, else 0.
fn differs(t: &[u8]) -> usize
    ensures { result ≤ 1 }
{
    usize::from(!agrees(t))
}

// Every line of the sample is a case.
pub(crate) fn replay(t: &[u8]) -> Counts {
    let mut cases = 0;
    let mut differ = 0;
    let mut p = 0;
    while p < t.len() {
        let l = text_lines::line_at(t, p);
        let end = l.end;
        let next = l.next;
        if next <= p {
            return Counts {
                cases,
                differ: differ + 1,
            };
        }
        differ += differs(&t[p..end]);
        cases += 1;
        p = next;
    }
    Counts { cases, differ }
}
