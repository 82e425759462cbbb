// The line at a place of a text, found by eight bytes at once.
#![tactic(auto)]

ghost use Rattle.std.specs.Prelude.{◌+◌, ◌≤◌, length};
ghost use Rattle.text_lines.specs.Lines.{LineIs, High, Eight, OneLine};

use scan::Kind;

// A line: where its bytes end, how long the full line end behind them is, and the place behind both.
#[derive(Clone, Copy)]
pub struct LineAt {
    pub end: usize,
    pub ends: usize,
    pub next: usize,
}

// Whether a byte is low enough to be CR or LF, or one before it was.
fn low(b: u8, before: bool) -> bool
    ensures { High b before result }
{
    b <= b'\r' || before
}

// Whether one of eight bytes is low enough to be CR or LF: no branch in it, so that the eight are compared at once.
fn low_of_eight(t: &[u8], i: usize) -> bool
    requires { i + 8 ≤ length t.now }
    ensures { Eight t.now i result }
{
    let a = low(t[i], false);
    let b = low(t[i + 1], a);
    let c = low(t[i + 2], b);
    let d = low(t[i + 3], c);
    let e = low(t[i + 4], d);
    let f = low(t[i + 5], e);
    let g = low(t[i + 6], f);
    low(t[i + 7], g)
}

// A place in the same line as the first of eight bytes, of which one is low: behind those that are no control characters.
fn past_few(t: &[u8], i: usize) -> usize
    requires { i + 8 ≤ length t.now }
    ensures { OneLine t.now i result }
{
    for j in i..i + 7 {
        if t[j] < 32 {
            return j;
        }
    }
    i + 7
}

// A place in the same line, behind as many bytes as have no low one among them; two eights a turn.
fn past_eights(t: &[u8], at: usize) -> usize
    ensures { OneLine t.now at result }
{
    if t.len() < at {
        return at;
    }
    let mut i = at;
    while 16 <= t.len() - i {
        if low_of_eight(t, i) {
            return past_few(t, i);
        }
        if low_of_eight(t, i + 8) {
            return past_few(t, i + 8);
        }
        i += 16;
    }
    i
}

// The line at a place: its bytes end before the first CR or LF. An LF behind the eights is its end at once.
pub fn line_at(t: &[u8], at: usize) -> LineAt
    ensures { LineIs t.now at result }
{
    let m = past_eights(t, at);
    if m < t.len() && t[m] == b'\n' {
        return LineAt {
            end: m,
            ends: 1,
            next: m + 1,
        };
    }
    let q = scan::past_kind(t, m, Kind::InLine);
    let e = scan::line_ending(t, q);
    LineAt {
        end: q,
        ends: e,
        next: q + e,
    }
}
