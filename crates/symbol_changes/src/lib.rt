// The symbols: first in the order of the older's rows, then those that only the newer has.
#![tactic(auto)]

ghost use Rattle.std.specs.Prelude.{◌≡◌, ◌++◌, ◌<◌, ◌≤◌, replicate};
ghost use Rattle.name_index.specs.Index.{indexed};
ghost use Rattle.change_rows.specs.Room.{few_of};
ghost use Rattle.change_rows.specs.Walk.{Walked, WalkedIf};
ghost use Rattle.symbol_changes.specs.Here.{gathered, new_here, old_here, value_here};

use change_rows::{Row, SYMBOL_ONLY_NEW, SYMBOL_ONLY_OLD, Side, VALUE_DIFFERS, few, put};
use name_index::{first_named, index_names};
use symbol_rows::symbol_name;
use symbol_sides::{on_one_side, same_value};

// Symbol i of the older and symbol j of the newer, which have one name.
fn values(
    older: &Side,
    i: usize,
    newer: &Side,
    j: usize,
    list: &mut [u32],
    count: usize,
    writing: bool,
) -> usize
    requires { (count < 4294967296) × (i < 1024) × (j < 1024) }
    ensures { Walked writing list.old count (value_here older.now.symbols.now i newer.now.symbols.now j) 1 result list.new }
{
    if same_value(older.symbols, i, newer.symbols, j) {
        return count;
    }
    let row = Row {
        kind: VALUE_DIFFERS,
        first: i as u32,
        second: j as u32,
        ..Row::default()
    };
    put(list, count, writing, row)
}

// Symbol i of the older, if it is the first of its name; by an index of each side's names.
fn old_symbol(
    older: &Side,
    index: &[u32],
    newer: &Side,
    other: &[u32],
    i: usize,
    list: &mut [u32],
    count: usize,
    writing: bool,
) -> usize
    requires { (count < 4294967296) × (i < 1024) × (older.now.symbol_count ≤ 1024) × (newer.now.symbol_count ≤ 1024) × (index.now ≡ indexed older.now.text.now older.now.symbols.now older.now.symbol_count (replicate 4096 0)) × (other.now ≡ indexed newer.now.text.now newer.now.symbols.now newer.now.symbol_count (replicate 4096 0)) }
    ensures { Walked writing list.old count (old_here older.now.text.now older.now.symbols.now older.now.symbol_count newer.now.text.now newer.now.symbols.now newer.now.symbol_count i) 1 result list.new }
{
    let (m, n) = (older.symbol_count, newer.symbol_count);
    let name = symbol_name(older.text, older.symbols, i);
    if first_named(name, older.text, older.symbols, m, index) == i {
        let j = first_named(name, newer.text, newer.symbols, n, other);
        if j < n {
            return values(older, i, newer, j, list, count, writing);
        }
        let row = Row {
            kind: SYMBOL_ONLY_OLD,
            first: i as u32,
            ..Row::default()
        };
        return put(list, count, writing, row);
    }
    count
}

// The symbols of the older.
fn old_symbols(
    older: &Side,
    index: &[u32; 4096],
    newer: &Side,
    other: &[u32; 4096],
    list: &mut [u32],
    first: usize,
    writing: bool,
) -> usize
    requires { (first ≤ 2147483648) × (older.now.symbol_count ≤ 1024) × (newer.now.symbol_count ≤ 1024) × (index.now ≡ indexed older.now.text.now older.now.symbols.now older.now.symbol_count (replicate 4096 0)) × (other.now ≡ indexed newer.now.text.now newer.now.symbols.now newer.now.symbol_count (replicate 4096 0)) }
    ensures { Walked writing list.old first (gathered (old_here older.now.text.now older.now.symbols.now older.now.symbol_count newer.now.text.now newer.now.symbols.now newer.now.symbol_count) 0 older.now.symbol_count) 1024 result list.new }
{
    let mut count = first;
    for i in 0..older.symbol_count {
        count = old_symbol(older, index, newer, other, i, list, count, writing);
    }
    count
}

// Symbol i of the newer, if it is the first of its name and the older lacks it; by an index of each side's names.
fn new_symbol(
    newer: &Side,
    index: &[u32],
    older: &Side,
    other: &[u32],
    i: usize,
    list: &mut [u32],
    count: usize,
    writing: bool,
) -> usize
    requires { (count < 4294967296) × (i < 1024) × (newer.now.symbol_count ≤ 1024) × (older.now.symbol_count ≤ 1024) × (index.now ≡ indexed newer.now.text.now newer.now.symbols.now newer.now.symbol_count (replicate 4096 0)) × (other.now ≡ indexed older.now.text.now older.now.symbols.now older.now.symbol_count (replicate 4096 0)) }
    ensures { Walked writing list.old count (new_here newer.now.text.now newer.now.symbols.now newer.now.symbol_count older.now.text.now older.now.symbols.now older.now.symbol_count i) 1 result list.new }
{
    if on_one_side(newer, index, older, other, i) {
        let row = Row {
            kind: SYMBOL_ONLY_NEW,
            second: i as u32,
            ..Row::default()
        };
        return put(list, count, writing, row);
    }
    count
}

// The symbols that only the newer has.
fn new_symbols(
    newer: &Side,
    index: &[u32; 4096],
    older: &Side,
    other: &[u32; 4096],
    list: &mut [u32],
    first: usize,
    writing: bool,
) -> usize
    requires { (first ≤ 2147483648) × (newer.now.symbol_count ≤ 1024) × (older.now.symbol_count ≤ 1024) × (index.now ≡ indexed newer.now.text.now newer.now.symbols.now newer.now.symbol_count (replicate 4096 0)) × (other.now ≡ indexed older.now.text.now older.now.symbols.now older.now.symbol_count (replicate 4096 0)) }
    ensures { Walked writing list.old first (gathered (new_here newer.now.text.now newer.now.symbols.now newer.now.symbol_count older.now.text.now older.now.symbols.now older.now.symbol_count) 0 newer.now.symbol_count) 1024 result list.new }
{
    let mut count = first;
    for i in 0..newer.symbol_count {
        count = new_symbol(newer, index, older, other, i, list, count, writing);
    }
    count
}

// All symbols of both.
fn walk(older: &Side, newer: &Side, list: &mut [u32], first: usize, writing: bool) -> usize
    requires { (first ≤ 536870912) × (older.now.symbol_count ≤ 1024) × (newer.now.symbol_count ≤ 1024) }
    ensures { Walked writing list.old first (gathered (old_here older.now.text.now older.now.symbols.now older.now.symbol_count newer.now.text.now newer.now.symbols.now newer.now.symbol_count) 0 older.now.symbol_count ++ gathered (new_here newer.now.text.now newer.now.symbols.now newer.now.symbol_count older.now.text.now older.now.symbols.now older.now.symbol_count) 0 newer.now.symbol_count) 2048 result list.new }
{
    let mut index = [0u32; 4096];
    let mut other = [0u32; 4096];
    index_names(older.text, older.symbols, older.symbol_count, &mut index);
    index_names(newer.text, newer.symbols, newer.symbol_count, &mut other);
    let count = old_symbols(older, &index, newer, &other, list, first, writing);
    new_symbols(newer, &other, older, &index, list, count, writing)
}

// All symbols, behind so many rows. Of more than 1,024 on a side, or behind more than 2^29 rows, nothing is added.
pub fn symbols(older: &Side, newer: &Side, list: &mut [u32], first: usize, writing: bool) -> usize
    ensures { WalkedIf (few_of first older.now.symbol_count newer.now.symbol_count) writing list.old first (gathered (old_here older.now.text.now older.now.symbols.now older.now.symbol_count newer.now.text.now newer.now.symbols.now newer.now.symbol_count) 0 older.now.symbol_count ++ gathered (new_here newer.now.text.now newer.now.symbols.now newer.now.symbol_count older.now.text.now older.now.symbols.now older.now.symbol_count) 0 newer.now.symbol_count) 2048 result list.new }
{
    if few(first, older.symbol_count, newer.symbol_count) {
        return walk(older, newer, list, first, writing);
    }
    first
}
