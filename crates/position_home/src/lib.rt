// The home of the kept area with an id, if a position lies in its image.
#![tactic(auto)]

ghost use Rattle.std.specs.Prelude.{◌≡◌, suc, eqb};
ghost use Rattle.position_home.specs.Homed.{home_from, home_for};

use homes::{Home, home_at};

// Whether a home has the id.
fn is_id(h: Home, id: u32) -> bool
    ensures { result ≡ eqb h.id (suc id) }
{
    h.id != 0 && h.id - 1 == id
}

// The one among n areas; a home without an id where there is none.
fn home_with(areas: &[u32], n: usize, id: u32) -> Home
    ensures { result ≡ home_from areas.now n id 0 n }
{
    for i in 0..n {
        let h = home_at(areas, n, i);
        if is_id(h, id) {
            return h;
        }
    }
    Home {
        area: 0,
        id: 0,
        start: 0,
        size: 0,
    }
}

// The same where the position lies in its image; a home without an id where it does not.
pub fn home_for(areas: &[u32], n: usize, id: u32, position: u32) -> Home
    ensures { result ≡ home_for areas.now n id position }
{
    let h = home_with(areas, n, id);
    if h.size <= position {
        return Home {
            area: 0,
            id: 0,
            start: 0,
            size: 0,
        };
    }
    h
}
