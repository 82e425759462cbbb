// What a mode gives and leaves on site.
#![tactic(auto)]

ghost use Rattle.std.specs.Prelude.{◌≡◌};
ghost use Rattle.format.specs.Mode as paper;
ghost use Rattle.format.specs.Mode.{on_site};

use class_rows::{get_onsite_size, gives};
use mode::class_of;

// Whether a mode can give a fixup.
pub fn gives_fixup(mode: u32) -> bool
    ensures { result ≡ paper.gives mode }
{
    gives(class_of(mode), mode)
}

// How many bytes of a mode stand on site.
pub fn size_on_site(mode: u32) -> u32
    ensures { result ≡ on_site mode }
{
    get_onsite_size(class_of(mode)) as u32
}
