// What a fragment refers to: a symbol of another module, or a kept area of this one.
#![tactic(auto)]

ghost use Rattle.std.specs.Prelude.{◌≡◌, ℕ, ◌<◌};
ghost use Rattle.std.proofs.Math.Option.{Option, some};
ghost use Rattle.format.specs.Outcome.{fine};
ghost use Rattle.format.specs.Tables.{rank, last_index};
ghost use Rattle.format.specs.Fixups.{to_area, home_of, symbol_ref, reference};
ghost use Rattle.format.specs.Rows.{plus_one_or_zero};
ghost use Rattle.laws.specs.Rows.{areas_in, symbol_at, fragment};
ghost use Rattle.sites.specs.Columns.{fragment_at};
ghost use Rattle.sites.specs.Site.{few, tables_for};
ghost use Rattle.references.specs.References.{told, refers_in};

use cells::{at, wide};
use classes::gives_fixup;
use homes::home_at;
use rooms::SYMBOL_WIDTH;
use sites::Filled;

// 1 for an outside symbol, its name's place and length; or 0, a kept area's id, and 0; and a value.
#[derive(Clone, Copy)]
pub struct Reference {
    pub outside: u32,
    pub what: u32,
    pub length: u32,
    pub value: u32,
}

// That a symbol is needed that is not in the table, that there is no reference, or the reference.
#[derive(Clone, Copy)]
pub enum Refers {
    Missing,
    Nothing,
    To(Reference),
}

// The rank of an area of any index among the kept ones, plus 1; 0 if it is none of them. More than 64 areas count as none.
fn rank_of(areas: &[u32], n: usize, i: usize) -> u32
    ensures { result ≡ plus_one_or_zero (rank 0 (areas_in areas.now (few n)) i) }
{
    let home = home_at(areas, n, i);
    home.id
}

// A kept area by its id plus 1, with a value; or nothing.
fn to_area(id: u32, value: u32) -> Refers
    ensures { (o : Option ℕ) → id ≡ plus_one_or_zero o → (place : ℕ) → told place result ≡ fine (to_area o value) }
{
    if id == 0 {
        return Refers::Nothing;
    }
    Refers::To(Reference {
        outside: 0,
        what: id - 1,
        length: 0,
        value: value,
    })
}

// The rank of a symbol's area, which is given as its index plus 1, or 0 for none; again plus 1, or 0.
fn home_of(areas: &[u32], n: usize, area: usize) -> u32
    ensures { result ≡ plus_one_or_zero (home_of (areas_in areas.now (few n)) (last_index area)) }
{
    if area == 0 {
        return 0;
    }
    rank_of(areas, n, area - 1)
}

// What the symbol i gives: a Ref its name and value, a Def its area's id and value.
fn symbol_ref(areas: &[u32], n: usize, symbols: &[u32], i: usize) -> Refers
    requires { i < 4294967296 }
    ensures { (place : ℕ) → told place result ≡ symbol_ref (areas_in areas.now (few n)) place (some (symbol_at symbols.now i)) }
{
    let value = at(symbols, SYMBOL_WIDTH * i + 3);
    if at(symbols, SYMBOL_WIDTH * i + 2) == 1 {
        return Refers::To(Reference {
            outside: 1,
            what: at(symbols, SYMBOL_WIDTH * i),
            length: at(symbols, SYMBOL_WIDTH * i + 1),
            value: value,
        });
    }
    let area = wide(at(symbols, SYMBOL_WIDTH * i + 4));
    to_area(home_of(areas, n, area), value)
}

// What a fragment's mode and index refer to: with bit 1 a symbol, and else an area.
fn refer(areas: &[u32], symbols: &[u32], filled: Filled, mode: u32, index: usize) -> Refers
    requires { index < 4294967296 }
    ensures { (place entry : ℕ) → told place result ≡ reference (tables_for areas.now symbols.now filled) place (fragment mode entry index) }
{
    if mode / 2 % 2 == 1 {
        if index < filled.symbols {
            return symbol_ref(areas, filled.areas, symbols, index);
        }
        return Refers::Missing;
    }
    to_area(rank_of(areas, filled.areas, index), 0)
}

// What the i-th fragment refers to, if it stands at the entry e and its mode can give a fixup.
pub fn refers_at(
    ms: &[u32],
    es: &[u32],
    xs: &[u32],
    areas: &[u32],
    symbols: &[u32],
    filled: Filled,
    i: usize,
    e: u32,
) -> Refers
    ensures { (place : ℕ) → told place result ≡ refers_in areas.now symbols.now filled (fragment_at ms.now es.now xs.now i) e place }
{
    if at(es, i) != e {
        return Refers::Nothing;
    }
    let mode = at(ms, i);
    if !gives_fixup(mode) {
        return Refers::Nothing;
    }
    refer(areas, symbols, filled, mode, wide(at(xs, i)))
}
