// Figures of one module, from the rows that a reading lent: its fixups by class, and its known bits.
#![tactic(auto)]

ghost use Rattle.std.specs.Prelude.{◌≡◌, min, eqb};
ghost use Rattle.format.specs.Lists.{pick};
ghost use Rattle.format.specs.Mode.{class_number_of};
ghost use Rattle.laws.specs.Rows.{fixup_row, fixups_in};
ghost use Rattle.figures.specs.Figures.{class_count, classes_of, known_in};

use area_rows::known_bits;
use mode::{class_number, class_of};
use row_parts::fixup_cell;

// How many fixups there are of each class.
#[derive(Clone, Copy)]
pub struct Classes {
    pub addr19: u64,
    pub addr11: u64,
    pub addr24: u64,
    pub addr16: u64,
    pub byte: u64,
}

// 1 if fixup j is of the class with a number.
fn one_if(fixups: &[u32], j: usize, class: u8) -> u64
    ensures { result ≡ pick (eqb (class_number_of (fixup_row fixups.now j).mode) class) 1 0 }
{
    if class_number(class_of(fixup_cell(fixups, j, 3))) == class {
        1
    } else {
        0
    }
}

// How many of the first n fixups are of the class with a number.
fn count(fixups: &[u32], n: usize, class: u8) -> u64
    ensures { result ≡ class_count class (fixups_in fixups.now n) }
{
    let mut many: u64 = 0;
    for j in 0..n {
        many += one_if(fixups, j, class);
    }
    many
}

// How many of the first n fixups are of each class.
pub fn classes_in(fixups: &[u32], n: usize) -> Classes
    ensures { result ≡ classes_of (fixups_in fixups.now n) }
{
    Classes {
        addr19: count(fixups, n, 0),
        addr11: count(fixups, n, 1),
        addr24: count(fixups, n, 2),
        addr16: count(fixups, n, 3),
        byte: count(fixups, n, 4),
    }
}

// The known bits of the first n areas, of 64 at most.
pub fn known_in(areas: &[u32], n: usize) -> u64
    ensures { result ≡ known_in areas.now (min n 64) }
{
    let k = n.min(64);
    let mut bits: u64 = 0;
    for j in 0..k {
        bits += u64::from(known_bits(areas, j));
    }
    bits
}
