// Rows of numbers for the readers' answers.
ghost use Rattle.std.specs.Prelude.{◌≡◌, suc};
ghost use Rattle.numbers.specs.Told.{told, code};
ghost use Rattle.header.specs.Told.{more_of, told_head};
ghost use Rattle.fields.specs.Told.{went};
ghost use Rattle.entry_line.specs.Told.{addr_of, told_entry, entry_of};
ghost use Rattle.pair_line.specs.Pairs.{told_content, told_relocation};
ghost use Rattle.probe_line.specs.Rows.{halt_row, value_row, row_of, flag, number_row, place_row, head_row, given_addr, addr_value, taken_row, entry_row, sized_row, LineRow};

use crate::Row;
use entry_line::Entry;
use header::{Head, Width};
use numbers::{Halt, Parsed, Reason};
use pair_line::{Content, Relocation};

// A halt.
fn halt(halt: Halt) -> Row
    ensures { result ≡ halt_row (code halt.reason) halt.at }
{
    Row {
        reason: halt.reason as u64,
        place: halt.at as u64,
        kind: 0,
        name: 0,
        length: 0,
        first: 0,
        second: 0,
        third: 0,
        fourth: 0,
    }
}

// Up to three values.
fn values(place: usize, first: u64, second: u64, third: u64) -> Row
    ensures { result ≡ value_row place first second third }
{
    Row {
        reason: 0,
        place: place as u64,
        kind: 0,
        name: 0,
        length: 0,
        first,
        second,
        third,
        fourth: 0,
    }
}

// 1 or 0.
fn one_if(b: bool) -> u64
    ensures { result ≡ flag b }
{
    u64::from(b)
}

// A number.
pub(crate) fn number_row(n: Parsed<u32>) -> Row
    ensures { result ≡ number_row (told n) }
{
    match n {
        Ok(read) => values(read.next, u64::from(read.value), 0, 0),
        Err(stop) => halt(stop),
    }
}

// A place.
pub(crate) fn place_row(n: Result<usize, Halt>) -> Row
    ensures { result ≡ place_row (went n) }
{
    match n {
        Ok(next) => values(next, 0, 0, 0),
        Err(stop) => halt(stop),
    }
}

// How many bytes an address has.
fn width_number(w: Width) -> u64
    ensures { result ≡ suc (more_of w) }
{
    match w {
        Width::Two => 2,
        Width::Three => 3,
        Width::Four => 4,
    }
}

// A header; without one, refusal 4 at place 0.
pub(crate) fn head_row(h: Head) -> Row
    ensures { result ≡ head_row (told_head h) }
{
    match h {
        Head::Found { form, next } => {
            let width = form.width;
            values(
                next,
                u64::from(form.radix),
                one_if(form.big),
                width_number(width),
            )
        }
        Head::Missing => halt(Halt {
            reason: Reason::Other,
            at: 0,
        }),
    }
}

// The line at a place.
pub(crate) fn line_row(t: &[u8], at: usize) -> Row
    ensures { LineRow t.now at result }
{
    let l = text_lines::line_at(t, at);
    values(l.next, l.end as u64, l.ends as u64, 0)
}

// Whether an addr is given.
fn given(a: Option<u32>) -> u64
    ensures { result ≡ given_addr (addr_of a) }
{
    match a {
        Some(_) => 1,
        None => 0,
    }
}

// The addr, or 0.
fn addr_value(a: Option<u32>) -> u64
    ensures { result ≡ addr_value (addr_of a) }
{
    match a {
        Some(addr) => u64::from(addr),
        None => 0,
    }
}

// A line of group one: kind 1 ignored, 2 an area with size, flags, whether addr is given and addr, 3 a symbol with Ref and value.
fn taken(e: Entry, used: usize) -> Row
    ensures { result ≡ taken_row (entry_of e) used }
{
    match e {
        Entry::Ignored => entry_values(used, 1, 0, 0, 0, 0, 0, 0),
        Entry::Area {
            name,
            len,
            size,
            flags,
            addr,
        } => {
            let g = given(addr);
            let v = addr_value(addr);
            entry_values(used, 2, name, len, u64::from(size), u64::from(flags), g, v)
        }
        Entry::Symbol {
            name,
            len,
            is_ref,
            value,
        } => {
            let f = one_if(is_ref);
            entry_values(used, 3, name, len, f, u64::from(value), 0, 0)
        }
    }
}

// A row of an entry.
fn entry_values(
    used: usize,
    kind: u64,
    name: usize,
    len: usize,
    a: u64,
    b: u64,
    c: u64,
    d: u64,
) -> Row
    ensures { result ≡ row_of used kind name len a b c d }
{
    Row {
        reason: 0,
        place: used as u64,
        kind: kind,
        name: name as u64,
        length: len as u64,
        first: a,
        second: b,
        third: c,
        fourth: d,
    }
}

// A line of group one, or its halt.
pub(crate) fn entry_row(e: Parsed<Entry>) -> Row
    ensures { result ≡ entry_row (told_entry e) }
{
    match e {
        Ok(read) => taken(read.value, read.next),
        Err(stop) => halt(stop),
    }
}

// A T line: address and count.
pub(crate) fn content_row(c: Result<Content, Halt>) -> Row
    ensures { result ≡ sized_row (told_content c) }
{
    match c {
        Ok(read) => values(read.used, u64::from(read.address), read.count as u64, 0),
        Err(stop) => halt(stop),
    }
}

// An R line: the area's index and count.
pub(crate) fn relocation_row(c: Result<Relocation, Halt>) -> Row
    ensures { result ≡ sized_row (told_relocation c) }
{
    match c {
        Ok(read) => values(read.used, u64::from(read.area), read.count as u64, 0),
        Err(stop) => halt(stop),
    }
}
