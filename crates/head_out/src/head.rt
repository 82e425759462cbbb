// The header's line.
ghost use Rattle.std.specs.Prelude.{◌≡◌};
ghost use Rattle.manual.specs.Specifier.{order_letter};
ghost use Rattle.written.specs.Writing.{order_of};
ghost use Rattle.header.specs.Told.{form_of};
ghost use Rattle.digits_out.specs.Wrote.{Wrote};
ghost use Rattle.head_out.specs.HeadOut.{head_out};

use digits_out::put_word;
use header::{Form, Width};

// H for big, L for little.
fn order_letter(big: bool) -> u8
    ensures { result ≡ order_letter (order_of big) }
{
    if big {
        return b'H';
    }
    b'L'
}

// The header's line: X, the order, the address length.
pub fn put_head(out: &mut [u8], form: Form) -> usize
    ensures { Wrote (head_out (form_of form)) out.old 0 result out.new }
{
    let order = order_letter(form.big);
    let w = form.width;
    match w {
        Width::Two => put_word(out, 0, &[b'X', order, b'2', b'\n']),
        Width::Three => put_word(out, 0, &[b'X', order, b'3', b'\n']),
        Width::Four => put_word(out, 0, &[b'X', order, b'4', b'\n']),
    }
}
