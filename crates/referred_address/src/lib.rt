// The address that a fragment refers to, by addresses chosen for kept areas and for outside symbols.
#![tactic(auto)]

ghost use Rattle.std.specs.Prelude.{◌≡◌, ℕ, get_or};
ghost use Rattle.laws.specs.Rows.{fragment};
ghost use Rattle.references.specs.References.{told, refers as refers_of, refers_in};
ghost use Rattle.referred_address.specs.Address.{address_by, address_in, told_address};

use cells::wide;
use references::{Reference, Refers, refers_at};
use sites::Filled;
use target_words::add64;

// The i-th address; past the end 0.
fn chosen_at(addresses: &[u64], i: usize) -> u64
    ensures { result ≡ get_or addresses.now i 0 }
{
    addresses.get(i).copied().unwrap_or(0)
}

// An outside symbol's by its index in the symbol table, an area's by its id; and the value added.
fn address_of(to: Reference, index: u32, areas: &[u64], outside: &[u64]) -> u64
    ensures { result ≡ address_by areas.now outside.now index (refers_of to) }
{
    if to.outside == 1 {
        return add64(chosen_at(outside, wide(index)), u64::from(to.value));
    }
    add64(chosen_at(areas, wide(to.what)), u64::from(to.value))
}

// What a fragment refers to.
fn refers(
    mode: u32,
    entry: u32,
    index: u32,
    areas: &[u32],
    symbols: &[u32],
    filled: Filled,
) -> Refers
    ensures { (place : ℕ) → told place result ≡ refers_in areas.now symbols.now filled (fragment mode entry index) entry place }
{
    let ms = [mode];
    let es = [entry];
    let xs = [index];
    refers_at(&ms, &es, &xs, areas, symbols, filled, 0, entry)
}

// The address that a fragment refers to; none where that is no kept area and no outside symbol.
pub fn address_to(
    mode: u32,
    entry: u32,
    index: u32,
    areas: &[u32],
    symbols: &[u32],
    filled: Filled,
    chosen: &[u64],
    outside: &[u64],
) -> Option<u64>
    ensures { (place : ℕ) → told_address result ≡ address_in chosen.now outside.now index (refers_in areas.now symbols.now filled (fragment mode entry index) entry place) }
{
    let to = refers(mode, entry, index, areas, symbols, filled);
    match to {
        Refers::Missing => None,
        Refers::Nothing => None,
        Refers::To(t) => Some(address_of(t, index, chosen, outside)),
    }
}
