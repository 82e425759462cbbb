// The lines of group one, one after another.
ghost use Rattle.std.specs.Prelude.{◌≡◌, true};
ghost use Rattle.laws.specs.Places.{entry_at};
ghost use Rattle.header.specs.Told.{form_of};
ghost use Rattle.counts.specs.Counts.{tells_at, told_from};
ghost use Rattle.h_line.specs.Told.{told_two};
ghost use Rattle.counts_of.specs.Told.{told_end, end_after, group_one_end};

use h_line::{Told, tells};
use header::Form;
use line_step::whole;

// Where the ended reading goes on behind the line at a place, if group one takes that line.
pub fn entry_end(t: &[u8], p: usize, form: Form) -> Option<usize>
    ensures { told_end result ≡ end_after (entry_at true (form_of form) t.now p) }
{
    if t.len() < p {
        return None;
    }
    let l = text_lines::line_at(t, p);
    let q = l.end;
    let Ok(entry) = entry_line::parse_entry(&t[p..q], form) else {
        return None;
    };
    if whole(entry.next, q - p, l.ends) {
        return Some(l.next);
    }
    None
}

// What the line at a place tells.
fn tells_at(t: &[u8], p: usize, radix: u8) -> Option<Told>
    ensures { told_two result ≡ tells_at radix t.now p }
{
    if t.len() < p {
        return None;
    }
    let l = text_lines::line_at(t, p);
    let q = l.end;
    tells(&t[p..q], radix)
}

// The first line of group one that tells, from a place on.
pub(crate) fn first_told(t: &[u8], head: usize, form: Form) -> Option<Told>
    ensures { told_two result ≡ told_from (form_of form) t.now head }
{
    let mut p = head;
    while p < t.len() {
        let next = entry_end(t, p, form)?;
        if let Some(told) = tells_at(t, p, form.radix) {
            return Some(told);
        }
        p = next;
    }
    None
}

// Where group one ends that begins at a place.
pub fn group_one_end(t: &[u8], head: usize, form: Form) -> usize
    ensures { result ≡ group_one_end (form_of form) t.now head }
{
    let mut p = head;
    while p < t.len() {
        let Some(next) = entry_end(t, p, form) else {
            return p;
        };
        p = next;
    }
    p
}
