// The T line: an address, then content bytes.
ghost use Rattle.std.specs.Prelude.{◌≡◌};
ghost use Rattle.format.specs.Pairs.{address_part, content_line, whole_content};
ghost use Rattle.numbers.specs.Told.{told};
ghost use Rattle.header.specs.Told.{form_of};
ghost use Rattle.format.specs.Got.{isnt, then};
ghost use Rattle.format.specs.Number.{next_byte};
ghost use Rattle.pair_line.specs.Pairs.{Contents, told_content};

use crate::usual::usual_letter;
use header::Form;
use numbers::{Halt, Parsed, Reason};

// A T line that was read: its address, the count of its content bytes, and the bytes used.
#[derive(Clone, Copy)]
pub struct Content {
    pub address: u32,
    pub count: usize,
    pub used: usize,
}

// T, and the address. The usual form is read at once.
fn address_part(t: &[u8], form: Form) -> Parsed<u32>
    ensures { told result ≡ address_part (form_of form) t.now 0 }
{
    let width = form.width;
    if usual_letter(t, b'T') {
        return joined::parse_multi_number(t, 2, form.radix, form.big, width);
    }
    let next = fields::lead_at(t, 0, b"T")?;
    joined::parse_multi_number(t, next, form.radix, form.big, width)
}

// T, the address, the content. The first 256 content bytes are written, all are counted.
pub fn parse_content(t: &[u8], form: Form, out: &mut [u8; 256]) -> Result<Content, Halt>
    ensures { Contents (content_line (form_of form) t.now 0) (content_line (form_of form) t.now 0) out.old result out.new }
{
    let address = address_part(t, form)?;
    let run = lists::parse_byte_many(t, address.next, form.radix, out);
    Ok(Content {
        address: address.value,
        count: run.count,
        used: run.end,
    })
}

// Why a T line is not used whole: the byte that is due behind the content.
fn not_whole(t: &[u8], used: usize, radix: u8) -> Result<Content, Halt>
    ensures { told_content result ≡ then (next_byte radix t.now used) (λ b next. isnt 4 used) }
{
    quick_numbers::next_byte(t, used, radix)?;
    Err(Halt {
        reason: Reason::Other,
        at: used,
    })
}

// A T line that an R line follows: no blank may stand before its end. What was read is written all the same.
pub fn whole_content(t: &[u8], form: Form, out: &mut [u8; 256]) -> Result<Content, Halt>
    ensures { Contents (whole_content (form_of form) t.now) (content_line (form_of form) t.now 0) out.old result out.new }
{
    let content = parse_content(t, form, out)?;
    if content.used == t.len() {
        return Ok(content);
    }
    not_whole(t, content.used, form.radix)
}
