// Group two before its first pair; refusal 9.
#![tactic(auto)]

ghost use Rattle.std.specs.Prelude.{◌≡◌};
ghost use Rattle.group_start.specs.Start.{going_at, starting_of};

use homes::Home;
use rooms::IMAGE_ROOM;
use tables::Found;
use turns::{Progress, Standing};

// Group two before its first pair, over so many positions. The home is that of the index behind the last area, which is none.
fn going_at(found: Found, positions: usize, on: bool, standing: Standing) -> Progress
    ensures { result ≡ going_at found positions on standing }
{
    let home = Home {
        area: found.areas,
        id: 0,
        start: 0,
        size: 0,
    };
    Progress {
        areas: found.areas,
        symbols: found.symbols,
        positions: positions,
        next: found.next,
        stop: found.stop,
        lines: 0,
        on: on,
        standing: standing,
        home: home,
    }
}

// The same where the kept areas have so many positions in all: 9 bars placing if these are too many.
pub fn starting(found: Found, total: usize) -> Progress
    ensures { result ≡ starting_of found total }
{
    if IMAGE_ROOM < total {
        let nine = Standing::Barred {
            number: 9,
            place: 0,
        };
        return going_at(found, 0, found.more, nine);
    }
    let none = Standing::Made { fixups: 0 };
    going_at(found, total, found.more, none)
}
