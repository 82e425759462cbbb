// Kinds of bytes, and the place behind a run of one kind.
ghost use Rattle.std.specs.Prelude.{◌≡◌, get_or};
ghost use Rattle.format.specs.Bytes.{is_blank, is_cr_or_lf, is_white};
ghost use Rattle.format.specs.Number.{past};
ghost use Rattle.scan.specs.Kinds.{kind_of};

use crate::Kind;

// Space or tab.
fn is_blank(b: u8) -> bool
    ensures { result ≡ is_blank b }
{
    b == b' ' || b == b'\t'
}

// CR or LF.
fn is_cr_or_lf(b: u8) -> bool
    ensures { result ≡ is_cr_or_lf b }
{
    b == b'\r' || b == b'\n'
}

// Blank, CR or LF.
fn is_white(b: u8) -> bool
    ensures { result ≡ is_white b }
{
    is_blank(b) || is_cr_or_lf(b)
}

// Whether a byte is of a kind.
fn of_kind(k: Kind, b: u8) -> bool
    ensures { result ≡ kind_of k b }
{
    match k {
        Kind::Blank => is_blank(b),
        Kind::White => is_white(b),
        Kind::InName => !is_white(b),
        Kind::InLine => !is_cr_or_lf(b),
    }
}

// The place behind the longest run of bytes of a kind.
pub fn past_kind(t: &[u8], at: usize, k: Kind) -> usize
    ensures { result ≡ past (kind_of k) t.now at }
{
    for i in at..t.len() {
        if !of_kind(k, t[i]) {
            return i;
        }
    }
    at.max(t.len())
}

// The byte at a place, or 0 past the end.
pub fn byte_at(t: &[u8], i: usize) -> u8
    ensures { result ≡ get_or t.now i 0 }
{
    if i < t.len() {
        return t[i];
    }
    0
}
