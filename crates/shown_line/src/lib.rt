// The line at a place of a text as it is shown to a person: its number, the part of it that fits on a terminal, and its bytes,
// one column each, made safe.
#![tactic(auto)]

ghost use Rattle.std.specs.Prelude.{◌≡◌, map, ◌-◌, max, eqb, take};
ghost use Rattle.format.specs.Lists.{pick};
ghost use Rattle.sink.specs.Sinks.{Adds};
ghost use Rattle.shown_line.specs.Shown.{lines_from, start_from, safe as safe_byte, window_of};

use scan::Kind;
use sink::{Buffer, Sink};

// Where a line begins and ends, and the part of it that is shown.
#[derive(Clone, Copy)]
pub struct Window {
    pub start: usize,
    pub from: usize,
    pub to: usize,
    pub end: usize,
}

// One of two numbers: the first behind an LF.
fn after_byte(byte: u8, next: usize, same: usize) -> usize
    ensures { result ≡ pick (eqb byte 10) next same }
{
    if byte == 10 {
        return next;
    }
    same
}

// How many lines some bytes end: how many LF there are in them.
fn lines_in(bytes: &[u8]) -> usize
    ensures { result ≡ lines_from 0 bytes.now }
{
    let mut n: usize = 0;
    for byte in bytes {
        n = after_byte(*byte, n + 1, n);
    }
    n
}

// How many lines stand before the one at a place.
pub fn lines_before(text: &[u8], place: usize) -> usize
    ensures { result ≡ lines_from 0 (take place text.now) }
{
    lines_in(sink::first_bytes(text, place))
}

// Where the line behind some bytes begins: behind their last LF.
fn start_behind(bytes: &[u8]) -> usize
    ensures { result ≡ start_from 0 0 bytes.now }
{
    let mut start: usize = 0;
    for i in 0..bytes.len() {
        start = after_byte(bytes[i], i + 1, start);
    }
    start
}

// Where the shown part begins: with the line, or 48 bytes before the place.
fn shown_from(start: usize, place: usize) -> usize
    ensures { result ≡ max start (place - 48) }
{
    start.max(place.saturating_sub(48))
}

// The line at a place, and the part of it, of at most 72 bytes, that is shown.
pub fn shown_part(text: &[u8], place: usize) -> Window
    ensures { result ≡ window_of text.now place }
{
    let start = start_behind(sink::first_bytes(text, place));
    let end = scan::past_kind(text, place, Kind::InLine);
    let from = shown_from(start, place);
    Window {
        start: start,
        from: from,
        to: sink::end_of(from, 72, end),
        end: end,
    }
}

// A byte that a terminal shows in one column: a tab as a blank, any other that is not printed as a question mark.
#[tactic(auto, unfolding(crate::specs::Shown::safe))]
fn safe(byte: u8) -> u8
    ensures { result ≡ safe_byte byte }
{
    match byte {
        b'\t' => b' ',
        32..=126 => byte,
        _ => b'?',
    }
}

// Adds the bytes of a line, made safe.
pub fn put_safe(s: Sink, out: &mut Buffer, bytes: &[u8]) -> Sink
    ensures { Adds s out.old (map safe_byte bytes.now) result out.new }
{
    let mut now = s;
    for byte in bytes {
        now = sink::put(now, out, &[safe(*byte)]);
    }
    now
}
