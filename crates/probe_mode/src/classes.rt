// The class and the size of a mode.
ghost use Rattle.std.specs.Prelude.{◌≡◌, ltb};
ghost use Rattle.format.specs.Lists.{pick};
ghost use Rattle.format.specs.Mode.{class_number_of, on_site};

use mode::{class_number, get_jump_type};

// The number of a mode's class, or 6 for a mode over 2,047.
#[unsafe(no_mangle)]
pub extern "C" fn probe_class(mode: u16) -> u8
    ensures { result ≡ pick (ltb mode 2048) (class_number_of mode) 6 }
{
    match get_jump_type(mode) {
        Some(class) => class_number(class),
        None => 6,
    }
}

// The size of a mode on site, or 0 for a mode over 2,047.
#[unsafe(no_mangle)]
pub extern "C" fn probe_size(mode: u16) -> usize
    ensures { result ≡ pick (ltb mode 2048) (on_site mode) 0 }
{
    match get_jump_type(mode) {
        Some(class) => class_rows::get_onsite_size(class),
        None => 0,
    }
}
