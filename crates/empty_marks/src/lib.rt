// The marks by which an empty pair in the usual form is known before its digits are read: two line ends in their places, and what its R line begins with.
#![tactic(auto)]

ghost use Rattle.std.specs.Prelude.{◌≡◌};
ghost use Rattle.empty_marks.specs.Marks.{ends_in_place, zero_lead};

use fields::same_so_far;

// Whether LF stands behind ten bytes at a place and again behind thirteen more.
pub fn ends_in_place(t: &[u8], p: usize) -> bool
    ensures { result ≡ ends_in_place t.now p }
{
    if t.len() <= p {
        return false;
    }
    if t.len() - p < 25 {
        return false;
    }
    if t[p + 10] != 10 {
        return false;
    }
    t[p + 24] == 10
}

// Whether eight bytes are R, the index 0 and one space, as `R 00 00 ` has them. No branch stands between the eight, so that they are compared at once.
pub fn zero_lead(s: u8, t: u8, u: u8, v: u8, w: u8, x: u8, y: u8, z: u8) -> bool
    ensures { result ≡ zero_lead s t u v w x y z }
{
    let a = same_so_far(s, b'R', true);
    let b = same_so_far(t, b' ', a);
    let c = same_so_far(u, b'0', b);
    let d = same_so_far(v, b'0', c);
    let e = same_so_far(w, b' ', d);
    let f = same_so_far(x, b'0', e);
    let g = same_so_far(y, b'0', f);
    same_so_far(z, b' ', g)
}
