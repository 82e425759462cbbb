// A T and R pair's numbers and its site, and whether they are within the bounds.
#![tactic(auto)]

ghost use Rattle.std.specs.Prelude.{◌≡◌, ◌&&◌};
ghost use Rattle.sites.specs.Site.{line_fits, filled_fits, is_ready};

use cells::wide;
use rooms::{FIXUP_ROOM, IMAGE_ROOM};

// A pair's numbers: the header's order and address length, the T line's place and address, how many content bytes and fragments, and the area's index.
#[derive(Clone, Copy)]
pub struct Line {
    pub big: bool,
    pub width: usize,
    pub place: usize,
    pub address: u32,
    pub bytes: usize,
    pub fragments: usize,
    pub area: usize,
}

// How far it is filled: the rows of areas, of symbols and of fixups that there are, and the known bits of the area of a pair.
#[derive(Clone, Copy)]
pub struct Filled {
    pub areas: usize,
    pub symbols: usize,
    pub fixups: usize,
    pub known: u32,
}

// Where a pair goes: its line, the counts of rows, the id of its area, where the image starts, its size, and how many numbers its fragments made.
#[derive(Clone, Copy)]
pub struct Site {
    pub line: Line,
    pub filled: Filled,
    pub id: u32,
    pub start: usize,
    pub size: u32,
    pub made: usize,
}

// Whether a line's counts are within the bounds, and as many content bytes are lent.
#[tactic(auto, unfolding(crate::specs::Site::line_fits))]
pub fn line_fits(line: Line, lent: usize) -> bool
    ensures { result ≡ line_fits line lent }
{
    line.width <= 4 && line.bytes <= 256 && line.bytes <= lent && line.fragments <= 64
}

// Whether the counts of rows are, and the fixup rows have room.
#[tactic(auto, unfolding(crate::specs::Site::filled_fits))]
fn filled_fits(filled: Filled, room: usize) -> bool
    ensures { result ≡ filled_fits filled room }
{
    filled.areas <= 64 && filled.symbols <= 1024 && filled.fixups <= 1024 && FIXUP_ROOM <= room
}

// Whether both do, with so many content bytes lent and room for so many numbers of fixup rows.
pub fn counts_fit(line: Line, filled: Filled, lent: usize, room: usize) -> bool
    ensures { result ≡ (line_fits line lent && filled_fits filled room) }
{
    line_fits(line, lent) && filled_fits(filled, room)
}

// Whether a site is within the bounds: its counts, the end of its image, and the numbers made.
#[tactic(auto, unfolding(crate::specs::Site::is_ready))]
pub fn is_ready(site: Site) -> bool
    ensures { result ≡ is_ready site }
{
    let line = site.line;
    counts_fit(line, site.filled, line.bytes, FIXUP_ROOM)
        && site.start <= IMAGE_ROOM
        && site.start + wide(site.size) <= IMAGE_ROOM
        && site.made <= 64
}
