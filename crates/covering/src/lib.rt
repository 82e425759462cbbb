// Which fragments of a T and R pair cover an entry of its line, and which entry a position is written from.
// Here ms and es are the fragments' modes and entries, width is the address length, and a line has so many entries: the address and its content.
#![tactic(auto)]

ghost use Rattle.std.specs.Prelude.{◌≡◌, ◌&&◌, ◌-◌, eqb};
ghost use Rattle.format.specs.Lists.{pick};
ghost use Rattle.format.specs.Mode as paper;
ghost use Rattle.covering.specs.Covering.{covered, entry_of, in_content, kept_from, kept_with};

use cells::{at, wide};
use class_rows::touched;
use classes::size_on_site;
use mode::class_of;

// How many entries a mode touches.
fn touched_by(mode: u32) -> usize
    ensures { result ≡ paper.touched mode }
{
    touched(class_of(mode), mode / 256 % 2 == 1)
}

// Whether a fragment covers the entry e: its own entry is at least the address length, and e is one of those that it touches.
#[tactic(auto, unfolding(crate::specs::Covering::covered))]
pub fn covers(mode: u32, entry: u32, width: usize, e: usize) -> bool
    ensures { result ≡ covered width mode entry e }
{
    let first = wide(entry);
    width <= first && first <= e && e < first + touched_by(mode)
}

// Whether the entry e is kept behind a fragment, where it was kept or not before.
#[tactic(auto, unfolding(crate::specs::Covering::kept_with))]
fn kept_with(mode: u32, entry: u32, width: usize, e: usize, before: bool) -> bool
    ensures { result ≡ kept_with width mode entry e before }
{
    if covers(mode, entry, width, e) {
        e < wide(entry) + wide(size_on_site(mode))
    } else {
        before
    }
}

// Whether the entry e is content.
#[tactic(auto, unfolding(crate::specs::Covering::in_content))]
fn in_content(width: usize, entries: usize, e: usize) -> bool
    ensures { result ≡ in_content width entries e }
{
    width <= e && e < entries
}

// Whether the entry e is kept once n fragments were worked in.
pub fn is_kept(ms: &[u32], es: &[u32], n: usize, width: usize, entries: usize, e: usize) -> bool
    ensures { result ≡ kept_from width ms.now es.now e 0 n (in_content width entries e) }
{
    let mut k = in_content(width, entries, e);
    for i in 0..n {
        k = kept_with(at(ms, i), at(es, i), width, e, k);
    }
    k
}

// Whether an entry is the one behind so many kept ones.
fn is_here(kept: bool, left: u32) -> bool
    ensures { result ≡ (kept && eqb left 0) }
{
    kept && left == 0
}

// How many kept ones are left behind an entry.
fn left_after(kept: bool, left: u32) -> u32
    ensures { result ≡ pick kept (left - 1) left }
{
    if kept { left.saturating_sub(1) } else { left }
}

// The entry that the position behind so many others is written from, the first being written from the first kept entry; or how many entries there are.
pub fn entry_of(
    ms: &[u32],
    es: &[u32],
    n: usize,
    width: usize,
    entries: usize,
    behind: u32,
) -> usize
    ensures { result ≡ entry_of width ms.now es.now n entries 0 entries behind }
{
    let mut left = behind;
    for e in 0..entries {
        let kept = is_kept(ms, es, n, width, entries, e);
        if is_here(kept, left) {
            return e;
        }
        left = left_after(kept, left);
    }
    entries
}
