// A pair of lines of group two: a T line and an R line, or a T line and a P line.
ghost use Rattle.std.specs.Prelude.{◌≡◌, ◌&&◌, ◌≤◌, ◌<◌, ◌+◌, ◌^◌, length, get_or, eqb, leb};
ghost use Rattle.format.specs.Pairs.{content_line, whole_content, relocation_line, skipped_of, pair_of};
ghost use Rattle.header.specs.Told.{form_of};
ghost use Rattle.steps.specs.PairLines.{line_of, case_of, Left, LeftAt, PairIs, PairStepIs, UsedIn, step_from};

use empty_pair::empty_pair;
use header::Form;
use line_step::{LineStep, line_step, record_end};
use pair_places::pair_places;
use text_lines::LineAt;

// What a pair is. Its content stands in the lent bytes, its fragments in the lent columns.
#[derive(Clone, Copy)]
pub enum Body {
    Skipped,
    Placed {
        address: u32,
        count: usize,
        area: u32,
        fragments: usize,
    },
}

// A pair with how many bytes of the text it used.
#[derive(Clone, Copy)]
struct PairLine {
    body: Body,
    used: usize,
}

// What two lines do to group two: they end it, or are taken; then where their record ends, where the next line begins, and whether the reading goes on there.
#[derive(Clone, Copy)]
pub enum PairStep {
    Ends,
    Takes {
        body: Body,
        end: usize,
        next: usize,
        on: bool,
    },
}

// Whether a line is a letter and at least one more byte.
fn any_line(t: &[u8], letter: u8) -> bool
    ensures { result ≡ (eqb (get_or t.now 0 0) letter && leb 2 (length t.now)) }
{
    scan::byte_at(t, 0) == letter && 2 <= t.len()
}

// A T line and a P line, if both are.
fn skipped_pair(a: &[u8], b: &[u8], width: usize) -> Option<PairLine>
    requires { width + length b.now < 2 ^ 64 }
    ensures { result ≡ line_of (case_of (skipped_of width a.now b.now)) }
{
    if any_line(a, b'T') && any_line(b, b'P') {
        return Some(PairLine {
            body: Body::Skipped,
            used: width + b.len(),
        });
    }
    None
}

// The pair of a line and the line behind it, if they are one; places count from the first, whose width with its line end is given.
fn read_pair(
    a: &[u8],
    b: &[u8],
    width: usize,
    form: Form,
    bytes: &mut [u8; 256],
    ms: &mut [u32; 64],
    es: &mut [u32; 64],
    xs: &mut [u32; 64],
) -> Option<PairLine>
    requires { width + length b.now < 2 ^ 64 }
    ensures pair_is { PairIs (pair_of (form_of form) width a.now b.now) result bytes.old ms.old es.old xs.old bytes.new ms.new es.new xs.new }
    ensures left { Left (content_line (form_of form) a.now 0) (whole_content (form_of form) a.now) (relocation_line (form_of form) b.now 0) bytes.old ms.old es.old xs.old bytes.new ms.new es.new xs.new }
{
    let Ok(content) = pair_line::whole_content(a, form, bytes) else {
        return skipped_pair(a, b, width);
    };
    let Ok(relocation) = pair_line::parse_reloc_line(b, form, ms, es, xs) else {
        return skipped_pair(a, b, width);
    };
    Some(PairLine {
        body: Body::Placed {
            address: content.address,
            count: content.count,
            area: relocation.area,
            fragments: relocation.count,
        },
        used: width + relocation.used,
    })
}

// What a pair that starts at p and whose second line is k does to group two.
fn step_from(line: Option<PairLine>, p: usize, k: LineAt, ended: bool) -> PairStep
    requires { (p ≤ k.end) × (UsedIn p line) }
    ensures { result ≡ step_from line p k ended }
{
    let Some(PairLine { body, used }) = line else {
        return PairStep::Ends;
    };
    match line_step(used, k.end - p, k.ends, k.next, p + used, ended) {
        LineStep::Stops => PairStep::Ends,
        LineStep::Goes { end } => PairStep::Takes {
            body,
            end,
            next: k.next,
            on: true,
        },
        LineStep::Last { end } => PairStep::Takes {
            body,
            end,
            next: k.next,
            on: false,
        },
    }
}

// What two lines of any form at a place do to group two.
fn any_pair(
    t: &[u8],
    p: usize,
    form: Form,
    ended: bool,
    bytes: &mut [u8; 256],
    ms: &mut [u32; 64],
    es: &mut [u32; 64],
    xs: &mut [u32; 64],
) -> PairStep
    ensures pair_step_is { PairStepIs ended (form_of form) t.now p result bytes.old ms.old es.old xs.old bytes.new ms.new es.new xs.new }
    ensures left_at { LeftAt (form_of form) t.now p bytes.old ms.old es.old xs.old bytes.new ms.new es.new xs.new }
{
    let Some(places) = pair_places(t, p) else {
        return PairStep::Ends;
    };
    let second = places.second;
    let q = places.first.end;
    let r = places.first.next;
    let s = second.end;
    let line = read_pair(&t[p..q], &t[r..s], r - p, form, bytes, ms, es, xs);
    step_from(line, p, second, ended)
}

// What the two lines at a place do to group two. An empty pair in the usual form is known at once.
pub fn pair_step(
    t: &[u8],
    p: usize,
    form: Form,
    ended: bool,
    bytes: &mut [u8; 256],
    ms: &mut [u32; 64],
    es: &mut [u32; 64],
    xs: &mut [u32; 64],
) -> PairStep
    ensures pair_step_is { PairStepIs ended (form_of form) t.now p result bytes.old ms.old es.old xs.old bytes.new ms.new es.new xs.new }
    ensures left_at { LeftAt (form_of form) t.now p bytes.old ms.old es.old xs.old bytes.new ms.new es.new xs.new }
{
    match empty_pair(t, p, form) {
        Some(empty) => PairStep::Takes {
            body: Body::Placed {
                address: empty.address,
                count: 0,
                area: empty.area,
                fragments: 0,
            },
            end: record_end(ended, p + 25, p + 24),
            next: p + 25,
            on: true,
        },
        None => any_pair(t, p, form, ended, bytes, ms, es, xs),
    }
}
