// The two or three low bytes of a number, laid in the header's order.
#![tactic(auto)]

ghost use Rattle.std.specs.Prelude.{◌≡◌, [], ◌∷◌, ◌≤◌, ◌%◌};
ghost use Rattle.std.proofs.lemmas.List.Edits.{sets};
ghost use Rattle.format.specs.Lists.{pick};
ghost use Rattle.laid.specs.Laid.{in_bytes};

use cells::{put, wide};

// The lowest byte of a number.
fn low(v: u64) -> u8
    ensures { result ≡ v % 256 }
{
    (v % 256) as u8
}

// Two bytes from a place on.
fn put2(out: &mut [u8], at: usize, a: u8, b: u8)
    requires { at ≤ 4294967296 }
    ensures { out.new ≡ sets out.old at (a ∷ b ∷ []) }
{
    put(out, at, a);
    put(out, at + 1, b)
}

// Three bytes from a place on.
fn put3(out: &mut [u8], at: usize, a: u8, b: u8, c: u8)
    requires { at ≤ 4294967296 }
    ensures { out.new ≡ sets out.old at (a ∷ b ∷ c ∷ []) }
{
    put2(out, at, a, b);
    put(out, at + 2, c)
}

// A number's two low bytes: big, the lowest stands last; little, it stands first.
fn put_two(out: &mut [u8], at: usize, big: bool, v: u64)
    requires { at ≤ 4294967296 }
    ensures { out.new ≡ sets out.old at (in_bytes big 2 v) }
{
    let a = low(v);
    let b = low(v / 256);
    if big {
        put2(out, at, b, a)
    } else {
        put2(out, at, a, b)
    }
}

// A number's three low bytes, in the same way.
fn put_three(out: &mut [u8], at: usize, big: bool, v: u64)
    requires { at ≤ 4294967296 }
    ensures { out.new ≡ sets out.old at (in_bytes big 3 v) }
{
    let a = low(v);
    let b = low(v / 256);
    let c = low(v / 256 / 256);
    if big {
        put3(out, at, c, b, a)
    } else {
        put3(out, at, a, b, c)
    }
}

// Three low bytes of a number, or two, from a place on; what has no room is not stored.
pub fn put_number(out: &mut [u8], at: u32, big: bool, three: bool, v: u64)
    ensures { out.new ≡ sets out.old at (in_bytes big (pick three 3 2) v) }
{
    let p = wide(at);
    if three {
        put_three(out, p, big, v)
    } else {
        put_two(out, p, big, v)
    }
}
