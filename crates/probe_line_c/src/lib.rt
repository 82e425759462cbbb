// The readers of `probe_line` under the names by which a program in another language links them.
#![tactic(auto)]

ghost use Rattle.std.specs.Prelude.{◌≡◌};
ghost use Rattle.format.specs.Number.{number, byte, joined};
ghost use Rattle.format.specs.Header.{header};
ghost use Rattle.format.specs.Entries.{letter_and_more, area_line, symbol_line, entry_line};
ghost use Rattle.format.specs.Pairs.{index, mode_of, content_line, whole_content, relocation_line};
ghost use Rattle.header.specs.Told.{more_of, form_of};
ghost use Rattle.fields.specs.Told.{one_of};
ghost use Rattle.probe_form.specs.Forms.{width_of, form_from};
ghost use Rattle.probe_line.specs.Rows.{number_row, place_row, head_row, entry_row, ContentRow, RelocationRow, LineRow};

use probe_line::Row;

// A number of a radix.
#[unsafe(no_mangle)]
pub extern "C" fn probe_number(t: &[u8], at: usize, radix: u8) -> Row
    ensures { result ≡ number_row (number radix t.now at) }
{
    probe_line::probe_number(t, at, radix)
}

// A byte.
#[unsafe(no_mangle)]
pub extern "C" fn probe_byte(t: &[u8], at: usize, radix: u8) -> Row
    ensures { result ≡ number_row (byte radix t.now at) }
{
    probe_line::probe_byte(t, at, radix)
}

// An address of two, three or else four bytes.
#[unsafe(no_mangle)]
pub extern "C" fn probe_address(t: &[u8], at: usize, radix: u8, big: bool, width: u8) -> Row
    ensures { result ≡ number_row (joined radix big (more_of (width_of width)) t.now at) }
{
    probe_line::probe_address(t, at, radix, big, width)
}

// An index.
#[unsafe(no_mangle)]
pub extern "C" fn probe_index(t: &[u8], at: usize, radix: u8, big: bool) -> Row
    ensures { result ≡ number_row (index radix big t.now at) }
{
    probe_line::probe_index(t, at, radix, big)
}

// A mode.
#[unsafe(no_mangle)]
pub extern "C" fn probe_mode(t: &[u8], at: usize, radix: u8) -> Row
    ensures { result ≡ number_row (mode_of radix t.now at) }
{
    probe_line::probe_mode(t, at, radix)
}

// The header: radix, order and address length.
#[unsafe(no_mangle)]
pub extern "C" fn probe_header(t: &[u8]) -> Row
    ensures { result ≡ head_row (header t.now) }
{
    probe_line::probe_header(t)
}

// The line at a place: where its bytes end, its line end's length, and the place behind both.
#[unsafe(no_mangle)]
pub extern "C" fn probe_line_at(t: &[u8], at: usize) -> Row
    ensures { LineRow t.now at result }
{
    probe_line::probe_line_at(t, at)
}

// A line that begins with one of the letters.
#[unsafe(no_mangle)]
pub extern "C" fn probe_ignored(t: &[u8], letters: &[u8]) -> Row
    ensures { result ≡ place_row (letter_and_more (one_of letters.now) tt t.now 0) }
{
    probe_line::probe_ignored(t, letters)
}

// An A line.
#[unsafe(no_mangle)]
pub extern "C" fn probe_area(t: &[u8], radix: u8, big: bool, width: u8) -> Row
    ensures { result ≡ entry_row (area_line (form_of (form_from radix big width)) t.now 0) }
{
    probe_line::probe_area(t, radix, big, width)
}

// An S line.
#[unsafe(no_mangle)]
pub extern "C" fn probe_symbol(t: &[u8], radix: u8, big: bool, width: u8) -> Row
    ensures { result ≡ entry_row (symbol_line (form_of (form_from radix big width)) t.now 0) }
{
    probe_line::probe_symbol(t, radix, big, width)
}

// A line of group one.
#[unsafe(no_mangle)]
pub extern "C" fn probe_entry(t: &[u8], radix: u8, big: bool, width: u8) -> Row
    ensures { result ≡ entry_row (entry_line (form_of (form_from radix big width)) t.now 0) }
{
    probe_line::probe_entry(t, radix, big, width)
}

// A T line; its first 256 content bytes are written.
#[unsafe(no_mangle)]
pub extern "C" fn probe_content(
    t: &[u8],
    radix: u8,
    big: bool,
    width: u8,
    out: &mut [u8; 256],
) -> Row
    ensures { ContentRow (content_line (form_of (form_from radix big width)) t.now 0) (content_line (form_of (form_from radix big width)) t.now 0) out.old result out.new }
{
    probe_line::probe_content(t, radix, big, width, out)
}

// A T line that has to be used whole.
#[unsafe(no_mangle)]
pub extern "C" fn probe_whole(t: &[u8], radix: u8, big: bool, width: u8, out: &mut [u8; 256]) -> Row
    ensures { ContentRow (whole_content (form_of (form_from radix big width)) t.now) (content_line (form_of (form_from radix big width)) t.now 0) out.old result out.new }
{
    probe_line::probe_whole(t, radix, big, width, out)
}

// An R line; its first 64 fragments are written, a column each for modes, entries and indexes.
#[unsafe(no_mangle)]
pub extern "C" fn probe_relocation(
    t: &[u8],
    radix: u8,
    big: bool,
    width: u8,
    modes: &mut [u32; 64],
    entries: &mut [u32; 64],
    indexes: &mut [u32; 64],
) -> Row
    ensures { RelocationRow (relocation_line (form_of (form_from radix big width)) t.now 0) result modes.old entries.old indexes.old modes.new entries.new indexes.new }
{
    probe_line::probe_relocation(t, radix, big, width, modes, entries, indexes)
}
