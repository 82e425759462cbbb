// The header: any blanks, CR and LF; one of X D Q, one of H L, one of 2 3 4; then blanks.
#![tactic(auto)]

ghost use Rattle.std.specs.Prelude.{◌≡◌, true, ◌+◌};
ghost use Rattle.format.specs.Header.{radix_of, is_order, is_length, header as header_of};
ghost use Rattle.header.specs.Told.{more_of, told_head};
ghost use Rattle.header.specs.Letters.{letters_at};

use scan::Kind;

// How many bytes an address has.
#[derive(Clone, Copy)]
pub enum Width {
    Two,
    Three,
    Four,
}

// What the header says: the radix of all numbers, whether the first byte is the highest, and the address length.
#[derive(Clone, Copy)]
pub struct Form {
    pub radix: u8,
    pub big: bool,
    pub width: Width,
}

// A header and the place behind its blanks, or none.
#[derive(Clone, Copy)]
pub enum Head {
    Found { form: Form, next: usize },
    Missing,
}

// The radix that a header's first letter names, or 0.
fn radix_of(b: u8) -> u8
    ensures { result ≡ radix_of b }
{
    match b {
        b'X' => 16,
        b'D' => 10,
        b'Q' => 8,
        _ => 0,
    }
}

// H or L.
fn is_order(b: u8) -> bool
    ensures { result ≡ is_order b }
{
    b == b'H' || b == b'L'
}

// 2, 3 or 4.
fn is_length(c: u8) -> bool
    ensures { result ≡ is_length c }
{
    b'2' <= c && c <= b'4'
}

// The address length that a header's last letter names.
fn width_of(c: u8) -> Width
    requires { is_length c ≡ true }
    ensures { more_of result + 49 ≡ c }
{
    match c {
        b'2' => Width::Two,
        b'3' => Width::Three,
        _ => Width::Four,
    }
}

// The header's letters at a place.
fn letters_at(t: &[u8], p: usize) -> Head
    ensures { told_head result ≡ letters_at t.now p }
{
    if t.len() < 3 {
        return Head::Missing;
    }
    if t.len() - 3 < p {
        return Head::Missing;
    }
    let radix = radix_of(t[p]);
    if radix == 0 {
        return Head::Missing;
    }
    let b = t[p + 1];
    if !is_order(b) {
        return Head::Missing;
    }
    let c = t[p + 2];
    if !is_length(c) {
        return Head::Missing;
    }
    let form = Form {
        radix,
        big: b == b'H',
        width: width_of(c),
    };
    Head::Found {
        form,
        next: scan::past_kind(t, p + 3, Kind::Blank),
    }
}

// The header at the start of a text.
pub fn format_spec(t: &[u8]) -> Head
    ensures { told_head result ≡ header_of t.now }
{
    let p = scan::past_kind(t, 0, Kind::White);
    letters_at(t, p)
}
