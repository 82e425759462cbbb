// Where a pair goes: nowhere, not where its numbers do not fit, or to a site in the image of its area.
#![tactic(auto)]

ghost use Rattle.std.specs.Prelude.{◌≡◌, ◌&&◌, ◌≤◌, ◌-◌, eqb};
ghost use Rattle.sites.specs.Site.{line_fits, filled_fits};
ghost use Rattle.located.specs.Site.{image_fits, site_at, found};

use cells::wide;
use homes::Home;
use rooms::IMAGE_ROOM;
use sites::{Filled, Line, Site, counts_fit};

// That an area is not kept, that the numbers do not fit, or a pair's site.
#[derive(Clone, Copy)]
pub enum Found {
    Unkept,
    Misfit,
    At(Site),
}

// Whether a home is that of a line's area, and the counts fit.
pub fn home_fits(home: Home, line: Line, filled: Filled, lent: usize, room: usize) -> bool
    ensures { result ≡ (eqb home.area line.area && (line_fits line lent && filled_fits filled room)) }
{
    home.area == line.area && counts_fit(line, filled, lent, room)
}

// The site of a pair at a home that has an id.
fn site_of(home: Home, line: Line, filled: Filled) -> Site
    requires { 1 ≤ home.id }
    ensures { result ≡ site_at line filled (home.id - 1) home.start home.size }
{
    Site {
        line: line,
        filled: filled,
        id: home.id - 1,
        start: home.start,
        size: home.size,
        made: 0,
    }
}

// Whether the image ends within 65,536 positions.
#[tactic(auto, unfolding(crate::specs::Site::image_fits))]
fn image_fits(site: Site) -> bool
    ensures { result ≡ image_fits site.start site.size }
{
    site.start <= IMAGE_ROOM && site.start + wide(site.size) <= IMAGE_ROOM
}

// Where a pair goes: nowhere, since its area is not kept; not where the numbers do not fit; or to a site.
pub fn locate(home: Home, line: Line, filled: Filled) -> Found
    ensures { result ≡ found home line filled }
{
    if home.id == 0 {
        return Found::Unkept;
    }
    let site = site_of(home, line, filled);
    if !image_fits(site) {
        return Found::Misfit;
    }
    Found::At(site)
}
