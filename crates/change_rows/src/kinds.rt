// The kinds of a row.

// A position of both sides whose value or mask differs.
pub const POSITION_DIFFERS: u32 = 0;

// A position that the newer lacks.
pub const POSITION_ONLY_OLD: u32 = 1;

// A position that the older lacks.
pub const POSITION_ONLY_NEW: u32 = 2;

// A fixup that the newer lacks.
pub const FIXUP_ONLY_OLD: u32 = 3;

// A fixup that the older lacks.
pub const FIXUP_ONLY_NEW: u32 = 4;

// An area that the newer lacks.
pub const AREA_ONLY_OLD: u32 = 5;

// An area that the older lacks.
pub const AREA_ONLY_NEW: u32 = 6;

// A symbol of both sides with another value.
pub const VALUE_DIFFERS: u32 = 7;

// A symbol that the newer lacks.
pub const SYMBOL_ONLY_OLD: u32 = 8;

// A symbol that the older lacks.
pub const SYMBOL_ONLY_NEW: u32 = 9;
