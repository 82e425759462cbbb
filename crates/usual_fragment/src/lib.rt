// A fragment in the usual form, as modules have it: mode, entry and index in capital digits of radix 16, two a byte, one space before each byte.
// It is a fast way: where it answers, the answer is the definition's; where it does not, nothing is said, and the reader of any form is asked.
#![tactic(auto)]

ghost use Rattle.std.specs.Prelude.{◌≡◌, ◌+◌, ◌<◌, ◌≤◌, length};
ghost use Rattle.usual_fragment.specs.Usual.{triple, TailIs, UsualIs};

use joined_bytes::join_two;
use modes::long_mode;
use numbers::Read;

// A fragment: the mode of its cells, its entry and its index.
#[derive(Clone, Copy)]
pub struct Fragment {
    pub mode: u32,
    pub entry: u32,
    pub index: u32,
}

// A byte of two capital digits behind one space, or 256 where anything else stands there. What follows is not looked at.
fn spaced(t: &[u8], p: usize) -> u64
    requires { p + 3 ≤ length t.now }
    ensures { result ≡ triple t.now p }
{
    let v = digits::two_capitals(t[p + 1], t[p + 2]);
    if t[p] != 32 {
        return 256;
    }
    v
}

// Entry and index behind a mode.
fn behind_mode(t: &[u8], p: usize, big: bool, mode: u32) -> Option<Read<Fragment>>
    requires { (p + 9 ≤ length t.now) × (mode < 2048) }
    ensures { TailIs big t.now p mode result }
{
    let e = spaced(t, p);
    let a = spaced(t, p + 3);
    let b = spaced(t, p + 6);
    if 255 < e {
        return None;
    }
    if 255 < a {
        return None;
    }
    if 255 < b {
        return None;
    }
    if 48 <= scan::byte_at(t, p + 9) {
        return None;
    }
    let index = join_two(big, a as u8, b as u8);
    Some(Read {
        value: Fragment {
            mode,
            entry: e as u32,
            index: index as u32,
        },
        next: p + 9,
    })
}

// A fragment in the usual form at a place.
pub fn usual_fragment(t: &[u8], at: usize, radix: u8, big: bool) -> Option<Read<Fragment>>
    ensures { UsualIs radix big t.now at result }
{
    if radix != 16 {
        return None;
    }
    if t.len() <= at {
        return None;
    }
    if t.len() - at < 12 {
        return None;
    }
    let m = spaced(t, at);
    if m < 240 {
        return behind_mode(t, at + 3, big, m as u32);
    }
    if t.len() - at < 15 {
        return None;
    }
    let l = spaced(t, at + 3);
    if 255 < m {
        return None;
    }
    if 255 < l {
        return None;
    }
    let mode = long_mode(m as u8, l as u8);
    if 2048 <= mode {
        return None;
    }
    behind_mode(t, at + 6, big, mode)
}
