// The name of a listed symbol, as a part of one of two lent texts, unchanged.
#![tactic(auto)]

ghost use Rattle.std.specs.Prelude.{◌≡◌};
ghost use Rattle.changed_name.specs.Name.{listed_name};

use symbol_rows::symbol_name;

// The kind of a symbol that only the older text has.
pub const SYMBOL_ONLY_OLD: u32 = 8;

// The newer text at the lifetime of the older one, which it outlives.
pub(crate) fn as_long<'a, 'b: 'a>(older: &'a [u8], newer: &'b [u8]) -> &'a [u8]
    ensures { result.now ≡ newer.now }
{
    newer
}

// By the row's kind and indexes: out of the newer text, or out of the older one where the newer lacks it. The newer text outlives the older one.
pub(crate) fn changed_name<'a, 'b: 'a>(
    older: &'a [u8],
    newer: &'b [u8],
    olds: &[u32],
    news: &[u32],
    kind: u32,
    i: usize,
    j: usize,
) -> &'a [u8]
    ensures { result.now ≡ listed_name older.now newer.now olds.now news.now kind i j }
{
    if kind == SYMBOL_ONLY_OLD {
        return symbol_name(older, olds, i);
    }
    symbol_name(as_long(older, newer), news, j)
}

// The same, each text with its lifetime: at any that both outlive.
pub fn name_of<'a: 'r, 'b: 'r, 'r>(
    older: &'a [u8],
    newer: &'b [u8],
    olds: &[u32],
    news: &[u32],
    kind: u32,
    i: usize,
    j: usize,
) -> &'r [u8]
    ensures { result.now ≡ listed_name older.now newer.now olds.now news.now kind i j }
{
    changed_name(older, newer, olds, news, kind, i, j)
}
