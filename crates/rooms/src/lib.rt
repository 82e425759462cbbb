// How long a row of each table is, and how much room a reading needs: the bounds that no accepted text passes.
#![tactic(auto)]

// Numbers in a row of the area table.
pub const AREA_WIDTH: usize = 7;

// Numbers in a row of the symbol table.
pub const SYMBOL_WIDTH: usize = 5;

// Numbers in a row of the fixups.
pub const FIXUP_WIDTH: usize = 9;

// Numbers in a row of the T and R pairs.
pub const PAIR_WIDTH: usize = 7;

// Room for 64 areas.
pub const AREA_ROOM: usize = 64 * AREA_WIDTH;

// Room for 1,024 symbols.
pub const SYMBOL_ROOM: usize = 1024 * SYMBOL_WIDTH;

// Room for 1,024 fixups.
pub const FIXUP_ROOM: usize = 1024 * FIXUP_WIDTH;

// Bytes of the longest text.
pub const TEXT_ROOM: usize = 65536;

// One byte more than the longest text, so that a longer one is seen.
pub const INPUT_ROOM: usize = TEXT_ROOM + 1;

// Positions of all images together.
pub const IMAGE_ROOM: usize = 65536;
