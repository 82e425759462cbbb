// Numbers that stand as two, three or four bytes: addresses and indexes, in both orders.
#![tactic(auto)]

ghost use Rattle.std.specs.Prelude.{◌≡◌};
ghost use Rattle.format.specs.Number.{joined as joined_at};
ghost use Rattle.format.specs.Pairs.{index};
ghost use Rattle.numbers.specs.Told.{told};
ghost use Rattle.header.specs.Told.{more_of};

use header::Width;
use numbers::Parsed;

// An address: as many bytes as the header says.
pub fn parse_multi_number(t: &[u8], at: usize, radix: u8, big: bool, w: Width) -> Parsed<u32>
    ensures { told result ≡ joined_at radix big (more_of w) t.now at }
{
    match w {
        Width::Two => joined_bytes::two_of(t, at, radix, big),
        Width::Three => joined_bytes::three_of(t, at, radix, big),
        Width::Four => joined_bytes::four_of(t, at, radix, big),
    }
}

// An index: two bytes.
pub fn parse_area_index(t: &[u8], at: usize, radix: u8, big: bool) -> Parsed<u32>
    ensures { told result ≡ index radix big t.now at }
{
    joined_bytes::two_of(t, at, radix, big)
}
