// One of the two modules that are compared.

// A text, and what was read of it: so many rows of areas, symbols and fixups, and the images of the kept areas.
#[derive(Clone, Copy)]
pub struct Side<'a> {
    pub text: &'a [u8],
    pub areas: &'a [u32],
    pub area_count: usize,
    pub symbols: &'a [u32],
    pub symbol_count: usize,
    pub values: &'a [u8],
    pub masks: &'a [u8],
    pub fixups: &'a [u32],
    pub fixup_count: usize,
}
