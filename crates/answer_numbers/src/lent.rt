// What a caller has to lend for a reading.
ghost use Rattle.std.specs.Prelude.{◌≡◌};
ghost use Rattle.answer_numbers.specs.Numbers.{rooms, widths};

use rooms::{
    AREA_ROOM, AREA_WIDTH, FIXUP_ROOM, FIXUP_WIDTH, IMAGE_ROOM, SYMBOL_ROOM, SYMBOL_WIDTH,
    TEXT_ROOM,
};

// Numbers in a row of each table.
#[repr(C)]
#[derive(Clone, Copy)]
pub struct Widths {
    pub area: usize,
    pub symbol: usize,
    pub fixup: usize,
}

// The longest text, and how many elements each lent buffer has to have room for.
#[repr(C)]
#[derive(Clone, Copy)]
pub struct Rooms {
    pub text: usize,
    pub areas: usize,
    pub symbols: usize,
    pub values: usize,
    pub masks: usize,
    pub fixups: usize,
}

// Numbers in a row of each table.
pub fn row_widths() -> Widths
    ensures { result ≡ widths }
{
    Widths {
        area: AREA_WIDTH,
        symbol: SYMBOL_WIDTH,
        fixup: FIXUP_WIDTH,
    }
}

// The longest text, and the room that each lent buffer has to have, in elements.
pub fn lent_rooms() -> Rooms
    ensures { result ≡ rooms }
{
    Rooms {
        text: TEXT_ROOM,
        areas: AREA_ROOM,
        symbols: SYMBOL_ROOM,
        values: IMAGE_ROOM,
        masks: IMAGE_ROOM,
        fixups: FIXUP_ROOM,
    }
}
