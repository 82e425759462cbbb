// Whether a position is the same on both sides, and where the longer image ends.
ghost use Rattle.std.specs.Prelude.{◌≡◌, length, leb};
ghost use Rattle.std.proofs.Math.Option.{some};
ghost use Rattle.format.specs.Lists.{pick};
ghost use Rattle.difference.specs.Changes.{same_cell};

// A position of an image: its value and its mask.
#[derive(Clone, Copy, Default, PartialEq, Eq)]
pub struct Cell {
    pub value: u8,
    pub mask: u8,
}

// Whether the older's value and mask are those of the newer.
pub fn same_cell(older: Cell, newer: Cell) -> bool
    ensures { result ≡ same_cell (some (record { value = older.value; mask = older.mask })) (some (record { value = newer.value; mask = newer.mask })) }
{
    older == newer
}

// The length of the longer of two images.
pub fn longer(v: &[u8], w: &[u8]) -> usize
    ensures { result ≡ pick (leb (length v.now) (length w.now)) (length w.now) (length v.now) }
{
    v.len().max(w.len())
}
