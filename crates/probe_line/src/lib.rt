// The readers of text and lines for a program in another language: bytes go in as slices, answers come back as rows of numbers.
// `probe_line_c` exports them.
#![tactic(auto)]

mod rows;

ghost use Rattle.std.specs.Prelude.{◌≡◌};
ghost use Rattle.format.specs.Number.{number, byte, joined};
ghost use Rattle.format.specs.Header.{header};
ghost use Rattle.format.specs.Entries.{letter_and_more, area_line, symbol_line, entry_line};
ghost use Rattle.format.specs.Pairs.{index, mode_of, content_line, whole_content, relocation_line};
ghost use Rattle.header.specs.Told.{more_of, form_of};
ghost use Rattle.fields.specs.Told.{one_of};
ghost use Rattle.probe_form.specs.Forms.{width_of, form_from};
ghost use Rattle.probe_line.specs.Rows.{number_row, place_row, head_row, entry_row, ContentRow, RelocationRow, LineRow};

use probe_form::{form_from, width_from};
use rows::{content_row, entry_row, head_row, line_row, number_row, place_row, relocation_row};

// The reason of a halt and its place; or 0, the place behind what was read, and its values, 0 where there is none.
#[repr(C)]
#[derive(Clone, Copy)]
pub struct Row {
    pub reason: u64,
    pub place: u64,
    pub kind: u64,
    pub name: u64,
    pub length: u64,
    pub first: u64,
    pub second: u64,
    pub third: u64,
    pub fourth: u64,
}

// A number of a radix.
pub fn probe_number(t: &[u8], at: usize, radix: u8) -> Row
    ensures { result ≡ number_row (number radix t.now at) }
{
    number_row(quick_numbers::parse_number(t, at, radix))
}

// A byte.
pub fn probe_byte(t: &[u8], at: usize, radix: u8) -> Row
    ensures { result ≡ number_row (byte radix t.now at) }
{
    number_row(quick_numbers::parse_byte(t, at, radix))
}

// An address of two, three or else four bytes.
pub fn probe_address(t: &[u8], at: usize, radix: u8, big: bool, width: u8) -> Row
    ensures { result ≡ number_row (joined radix big (more_of (width_of width)) t.now at) }
{
    number_row(joined::parse_multi_number(t, at, radix, big, width_from(width)))
}

// An index.
pub fn probe_index(t: &[u8], at: usize, radix: u8, big: bool) -> Row
    ensures { result ≡ number_row (index radix big t.now at) }
{
    number_row(joined::parse_area_index(t, at, radix, big))
}

// A mode.
pub fn probe_mode(t: &[u8], at: usize, radix: u8) -> Row
    ensures { result ≡ number_row (mode_of radix t.now at) }
{
    number_row(modes::parse_extended_mode(t, at, radix))
}

// The header: radix, order and address length.
pub fn probe_header(t: &[u8]) -> Row
    ensures { result ≡ head_row (header t.now) }
{
    head_row(header::format_spec(t))
}

// The line at a place: where its bytes end, its line end's length, and the place behind both.
pub fn probe_line_at(t: &[u8], at: usize) -> Row
    ensures { LineRow t.now at result }
{
    line_row(t, at)
}

// A line that begins with one of the letters.
pub fn probe_ignored(t: &[u8], letters: &[u8]) -> Row
    ensures { result ≡ place_row (letter_and_more (one_of letters.now) tt t.now 0) }
{
    place_row(fields::ignore_line(t, letters))
}

// An A line.
pub fn probe_area(t: &[u8], radix: u8, big: bool, width: u8) -> Row
    ensures { result ≡ entry_row (area_line (form_of (form_from radix big width)) t.now 0) }
{
    entry_row(entry_line::parse_area(t, form_from(radix, big, width)))
}

// An S line.
pub fn probe_symbol(t: &[u8], radix: u8, big: bool, width: u8) -> Row
    ensures { result ≡ entry_row (symbol_line (form_of (form_from radix big width)) t.now 0) }
{
    entry_row(entry_line::parse_symdefref(t, form_from(radix, big, width)))
}

// A line of group one.
pub fn probe_entry(t: &[u8], radix: u8, big: bool, width: u8) -> Row
    ensures { result ≡ entry_row (entry_line (form_of (form_from radix big width)) t.now 0) }
{
    entry_row(entry_line::parse_entry(t, form_from(radix, big, width)))
}

// A T line; its first 256 content bytes are written.
pub fn probe_content(t: &[u8], radix: u8, big: bool, width: u8, out: &mut [u8; 256]) -> Row
    ensures { ContentRow (content_line (form_of (form_from radix big width)) t.now 0) (content_line (form_of (form_from radix big width)) t.now 0) out.old result out.new }
{
    content_row(pair_line::parse_content(t, form_from(radix, big, width), out))
}

// A T line that has to be used whole.
pub fn probe_whole(t: &[u8], radix: u8, big: bool, width: u8, out: &mut [u8; 256]) -> Row
    ensures { ContentRow (whole_content (form_of (form_from radix big width)) t.now) (content_line (form_of (form_from radix big width)) t.now 0) out.old result out.new }
{
    content_row(pair_line::whole_content(t, form_from(radix, big, width), out))
}

// An R line; its first 64 fragments are written, a column each for modes, entries and indexes.
pub fn probe_relocation(
    t: &[u8],
    radix: u8,
    big: bool,
    width: u8,
    modes: &mut [u32; 64],
    entries: &mut [u32; 64],
    indexes: &mut [u32; 64],
) -> Row
    ensures { RelocationRow (relocation_line (form_of (form_from radix big width)) t.now 0) result modes.old entries.old indexes.old modes.new entries.new indexes.new }
{
    relocation_row(pair_line::parse_reloc_line(
        t,
        form_from(radix, big, width),
        modes,
        entries,
        indexes,
    ))
}
