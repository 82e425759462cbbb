// Lists of bytes, each behind blanks.
// A reader takes a text and a place, and answers how many there were and the place behind them. Past the end it reads nothing.
#![tactic(auto)]

ghost use Rattle.std.specs.Prelude.{◌≡◌};
ghost use Rattle.format.specs.Number.{next_byte};
ghost use Rattle.numbers.specs.Told.{told};
ghost use Rattle.lists.specs.Many.{BytesRead, BytesBegun};
ghost use Rattle.lists.specs.Reach.{Reach};

use numbers::{Halt, Parsed, Reason};

// How many things were read one after another, and the place behind them.
#[derive(Clone, Copy)]
pub struct Run {
    pub count: usize,
    pub end: usize,
}

// The place before which bytes of a list may be read in the usual form, or 0: a space stands in front of the first, the text goes on behind each, and they are 256 at most.
fn reach_of(t: &[u8], at: usize, radix: u8) -> usize
    ensures { Reach radix t.now at result }
{
    if radix != 16 {
        return 0;
    }
    if t.len() <= at {
        return 0;
    }
    if t.len() - at < 4 {
        return 0;
    }
    if t[at] != 32 {
        return 0;
    }
    let last = t.len() - 3;
    if 768 < last - at {
        return at + 768;
    }
    last
}

// The first bytes of a list, as many as stand there as one space, two capital digits of radix 16 and the space of the next or the end of the text.
// Each digit is tested by itself, so that a byte takes no test more.
fn begin_bytes(t: &[u8], at: usize, radix: u8, out: &mut [u8; 256]) -> Run
    ensures { BytesBegun radix t.now at result out.old out.new }
{
    let last = reach_of(t, at, radix);
    let mut n = 0;
    let mut p = at;
    while p < last {
        let d = digits::hex_of(t[p + 1]);
        let e = digits::hex_of(t[p + 2]);
        if 15 < d {
            return Run { count: n, end: p };
        }
        if 15 < e {
            return Run { count: n, end: p };
        }
        if t[p + 3] != 32 {
            return Run { count: n, end: p };
        }
        out[n] = (d * 16 + e) as u8;
        n += 1;
        p += 3;
    }
    let v = list_bytes::last_byte(t, p, radix);
    if v < 256 {
        list_bytes::put(out, n, v as u8);
        return Run {
            count: n + 1,
            end: p + 3,
        };
    }
    Run { count: n, end: p }
}

// One or more blanks, and a byte. Behind the end nothing is looked for.
fn following(t: &[u8], at: usize, radix: u8) -> Parsed<u32>
    ensures { told result ≡ next_byte radix t.now at }
{
    if t.len() <= at {
        return Err(Halt {
            reason: Reason::Other,
            at,
        });
    }
    quick_numbers::next_byte(t, at, radix)
}

// As many bytes as can be read, each behind blanks. The first 256 are written, all are counted.
pub fn parse_byte_many(t: &[u8], at: usize, radix: u8, out: &mut [u8; 256]) -> Run
    ensures { BytesRead radix t.now at result out.old out.new }
{
    let begun = begin_bytes(t, at, radix, out);
    let mut p = begun.end;
    for n in begun.count..t.len() {
        let Ok(b) = following(t, p, radix) else {
            return Run { count: n, end: p };
        };
        list_bytes::put(out, n, b.value as u8);
        p = b.next;
    }
    Run {
        count: t.len(),
        end: p,
    }
}
