// The addresses noted, and whether each thing that needs one has it.
use crate::given::{Given, given_at};
use crate::{Addresses, missing};
use alike::same_name;
use std::env::Env;
use symbol_rows::{is_ref, symbol_name};

// A 1 for each address that is chosen.
pub(crate) type Flags = [u8; 1088];

// Where a symbol's address stands.
pub(crate) fn symbol_place(j: usize) -> usize {
    sink::end_of(64, j, 1088)
}

// Notes an address at a place, and that it is chosen.
fn note(addresses: &mut Addresses, flags: &mut Flags, i: usize, address: u64) {
    if i < 1088 {
        addresses[i] = address;
        flags[i] = 1;
    }
}

// Notes the address of all of n symbols that have a name; whether one of them is an outside symbol.
fn note_named(
    text: &[u8],
    symbols: &[u32],
    n: usize,
    name: &[u8],
    address: u64,
    addresses: &mut Addresses,
    flags: &mut Flags,
) -> bool {
    let mut found = false;
    for j in 0..n {
        if same_name(name, symbol_name(text, symbols, j)) {
            note(addresses, flags, symbol_place(j), address);
            found = found || is_ref(symbols, j);
        }
    }
    found
}

// The same of the name that argument i gives; one that no outside symbol has is told.
fn note_symbol(
    rt: &impl Env,
    text: &[u8],
    symbols: &[u32],
    n: usize,
    i: usize,
    address: u64,
    addresses: &mut Addresses,
    flags: &mut Flags,
) -> bool {
    let mut word = io::large_buffer();
    let k = host::argument_or_none(rt, i, &mut word);
    let name = sink::first_bytes(&word, k);
    if note_named(text, symbols, n, name, address, addresses, flags) {
        return true;
    }
    console::tell_words(name, b"no such outside symbol");
    false
}

// Notes the address of the area of an id, below the number of kept areas; any other is told.
fn note_area(
    kept: usize,
    id: usize,
    address: u64,
    addresses: &mut Addresses,
    flags: &mut Flags,
) -> bool {
    if kept <= id {
        missing::tell_area(id, b"no such area with code");
        return false;
    }
    note(addresses, flags, id, address);
    true
}

// Notes what three arguments give.
fn note_given(
    rt: &impl Env,
    text: &[u8],
    symbols: &[u32],
    n: usize,
    kept: usize,
    i: usize,
    count: usize,
    addresses: &mut Addresses,
    flags: &mut Flags,
) -> bool {
    match given_at(rt, i, count) {
        Given::Area { id, address } => note_area(kept, cells::wide(id), address, addresses, flags),
        Given::Symbol { address } => note_symbol(
            rt,
            text,
            symbols,
            n,
            sink::end_of(i, 1, count),
            address,
            addresses,
            flags,
        ),
        Given::Wrong => false,
    }
}

// Notes what all arguments from one on give. Whatever is not there is told.
fn note_all(
    rt: &impl Env,
    text: &[u8],
    symbols: &[u32],
    n: usize,
    kept: usize,
    first: usize,
    count: usize,
    addresses: &mut Addresses,
    flags: &mut Flags,
) -> bool {
    let mut all = true;
    for i in (first..count).step_by(3) {
        if !note_given(rt, text, symbols, n, kept, i, count, addresses, flags) {
            all = false;
        }
    }
    all
}

// The addresses that the arguments from one on choose for the kept areas and the n symbols of a text; whether each kept area and each outside symbol has one. What has none is told, and so is what is not
// there. Of two addresses for one the last counts.
pub fn choose(
    rt: &impl Env,
    text: &[u8],
    symbols: &[u32],
    n: usize,
    kept: usize,
    first: usize,
    count: usize,
    addresses: &mut Addresses,
) -> bool {
    let mut flags: Flags = [0u8; 1088];
    let there = note_all(
        rt, text, symbols, n, kept, first, count, addresses, &mut flags,
    );
    let areas = missing::areas_have(kept, &flags);
    let names = missing::symbols_have(text, symbols, n, &flags);
    there && areas && names
}
