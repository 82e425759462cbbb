// A form out of its numbers.
ghost use Rattle.std.specs.Prelude.{◌≡◌};
ghost use Rattle.probe_form.specs.Forms.{width_of, form_from};

use header::{Form, Width};

// The address length: two, three, or else four.
pub fn width_from(width: u8) -> Width
    ensures { result ≡ width_of width }
{
    match width {
        2 => Width::Two,
        3 => Width::Three,
        _ => Width::Four,
    }
}

// A form out of its numbers.
pub fn form_from(radix: u8, big: bool, width: u8) -> Form
    ensures { result ≡ form_from radix big width }
{
    Form {
        radix,
        big,
        width: width_from(width),
    }
}
