// Three arguments: what they choose an address for, and the address.
use alike::same_name;
use std::env::Env;

// An address for the kept area of an id, or for the outside symbol that the second argument names; or the words are wrong.
#[derive(Clone, Copy)]
pub(crate) enum Given {
    Area { id: u32, address: u64 },
    Symbol { address: u64 },
    Wrong,
}

// What the first of three words says.
#[derive(Clone, Copy)]
enum Kind {
    Area,
    Symbol,
    Other,
}

// What a byte is worth as a digit of radix 16, of either case.
fn digit(b: u8) -> Option<u64> {
    match b {
        b'0'..=b'9' => Some(u64::from(b - b'0')),
        b'A'..=b'F' => Some(u64::from(b - b'A') + 10),
        b'a'..=b'f' => Some(u64::from(b - b'a') + 10),
        _ => None,
    }
}

// The address of a word of one to sixteen digits.
fn address_of(word: &[u8]) -> Option<u64> {
    if word.is_empty() || 16 < word.len() {
        return None;
    }
    let mut a: u64 = 0;
    for b in word {
        a = target_words::add64(target_words::shl64(a, 4), digit(*b)?);
    }
    Some(a)
}

// The address that argument i gives.
fn address_at(rt: &impl Env, i: usize) -> Option<u64> {
    let mut word = [0u8; 16];
    let n = host::argument_or_none(rt, i, &mut word);
    address_of(sink::first_bytes(&word, n))
}

// What argument i says is to have an address.
fn kind_at(rt: &impl Env, i: usize) -> Kind {
    let mut word = [0u8; 8];
    let n = host::argument_or_none(rt, i, &mut word);
    if same_name(sink::first_bytes(&word, n), b"area") {
        return Kind::Area;
    }
    if same_name(sink::first_bytes(&word, n), b"symbol") {
        return Kind::Symbol;
    }
    Kind::Other
}

// An address for the area whose id a word gives, decimal.
fn area_of(word: &[u8], address: u64) -> Given {
    match quick_numbers::parse_number(word, 0, 10) {
        Ok(n) if n.next == word.len() => Given::Area {
            id: n.value,
            address: address,
        },
        _ => Given::Wrong,
    }
}

// The same of argument i.
fn area_at(rt: &impl Env, i: usize, address: u64) -> Given {
    let mut word = [0u8; 16];
    let n = host::argument_or_none(rt, i, &mut word);
    area_of(sink::first_bytes(&word, n), address)
}

// What the three arguments from one on give; too few are wrong.
pub(crate) fn given_at(rt: &impl Env, i: usize, count: usize) -> Given {
    let Some(address) = address_at(rt, sink::end_of(i, 2, count)) else {
        return Given::Wrong;
    };
    match kind_at(rt, i) {
        Kind::Area => area_at(rt, sink::end_of(i, 1, count), address),
        Kind::Symbol => Given::Symbol { address: address },
        Kind::Other => Given::Wrong,
    }
}

// Whether three arguments give something.
fn is_right(rt: &impl Env, i: usize, count: usize) -> bool {
    !matches!(given_at(rt, i, count), Given::Wrong)
}

// Whether the arguments from one on choose addresses, three words each.
pub fn are_right(rt: &impl Env, first: usize, count: usize) -> bool {
    for i in (first..count).step_by(3) {
        if !is_right(rt, i, count) {
            return false;
        }
    }
    true
}
