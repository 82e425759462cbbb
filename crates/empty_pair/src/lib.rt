// A pair without content and fragments in the usual form, as modules have it: `T xx xx xx`, LF, `R 00 00 xx xx`, LF, in capital digits of radix 16. More than a third of all pairs are such.
// It is a fast way: where it answers, both lines end where it says and the definition reads no more of them; where it does not, nothing is said, and the readers of any line are asked.
#![tactic(auto)]

ghost use Rattle.std.specs.Prelude.{◌≡◌, length};
ghost use Rattle.header.specs.Told.{form_of};
ghost use Rattle.empty_pair.specs.Empty.{three, LeadsAddress, AddressOnly, AreaOnly, EmptyPair};

use byte_joins::{three_joined, two_joined};
use digits::two_capitals;
use empty_marks::{ends_in_place, zero_lead};
use fields::same_so_far;
use header::{Form, Width};

// The address and the area of an empty pair.
#[derive(Clone, Copy)]
pub struct Empty {
    pub address: u32,
    pub area: u32,
}

// Whether a line of ten bytes has a T and three spaces where `T xx xx xx` has them.
fn leads_address(t: &[u8]) -> bool
    requires { length t.now ≡ 10 }
    ensures { LeadsAddress t.now result }
{
    let a = same_so_far(t[0], b'T', true);
    let b = same_so_far(t[1], b' ', a);
    let c = same_so_far(t[4], b' ', b);
    same_so_far(t[7], b' ', c)
}

// The address of a T line of ten bytes, `T xx xx xx`, or 2^24 where it is another.
fn address_only(t: &[u8], big: bool) -> u64
    requires { length t.now ≡ 10 }
    ensures { AddressOnly big t.now result }
{
    if !leads_address(t) {
        return 16777216;
    }
    let a = two_capitals(t[2], t[3]);
    let b = two_capitals(t[5], t[6]);
    let c = two_capitals(t[8], t[9]);
    three_joined(big, a, b, c)
}

// The area of an R line of thirteen bytes, `R 00 00 xx xx`, or 65536 where it is another.
fn area_only(t: &[u8], big: bool) -> u64
    requires { length t.now ≡ 13 }
    ensures { AreaOnly big t.now result }
{
    if !zero_lead(t[0], t[1], t[2], t[3], t[4], t[5], t[6], t[7]) {
        return 65536;
    }
    if t[10] != 32 {
        return 65536;
    }
    let x = two_capitals(t[8], t[9]);
    let y = two_capitals(t[11], t[12]);
    two_joined(big, x, y)
}

// The same of two lines at a place, of a form whose radix is 16 and whose addresses have three bytes.
fn two_lines(t: &[u8], p: usize, big: bool) -> Option<Empty>
    ensures { EmptyPair (three big) t.now p result }
{
    if !ends_in_place(t, p) {
        return None;
    }
    let a = address_only(&t[p..p + 10], big);
    if 16777215 < a {
        return None;
    }
    let i = area_only(&t[p + 11..p + 24], big);
    if 65535 < i {
        return None;
    }
    Some(Empty {
        address: a as u32,
        area: i as u32,
    })
}

// An empty pair in the usual form at a place.
pub fn empty_pair(t: &[u8], p: usize, form: Form) -> Option<Empty>
    ensures { EmptyPair (form_of form) t.now p result }
{
    if form.radix != 16 {
        return None;
    }
    let width = form.width;
    match width {
        Width::Three => two_lines(t, p, form.big),
        Width::Two | Width::Four => None,
    }
}
