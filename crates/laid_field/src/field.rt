// One fragment's bytes: the address that it refers to plus its number.
ghost use Rattle.std.specs.Prelude.{◌≡◌, take, drop, eqb};
ghost use Rattle.std.proofs.lemmas.List.Edits.{sets};
ghost use Rattle.format.specs.Lists.{pick};
ghost use Rattle.format.specs.Mode.{on_site};
ghost use Rattle.format.specs.Number.{join};
ghost use Rattle.referred_address.specs.Address.{told_address};
ghost use Rattle.laid_field.specs.Field.{field_by};

use cells::wide;
use classes::size_on_site;
use joining::endian_to_number;
use number_bytes::put_number;
use target_words::add64;

// Whether a mode has three bytes on site.
fn is_three(mode: u32) -> bool
    ensures { result ≡ eqb (on_site mode) 3 }
{
    size_on_site(mode) == 3
}

// Three or two.
fn how_many(three: bool) -> usize
    ensures { result ≡ pick three 3 2 }
{
    if three { 3 } else { 2 }
}

// The number that the content has from a site on.
fn number_at(bs: &[u8], site: u32, big: bool, three: bool) -> u64
    ensures { result ≡ join big (take (pick three 3 2) (drop site bs.now)) }
{
    let at = wide(site);
    if bs.len() <= at {
        return 0;
    }
    u64::from(endian_to_number(big, &bs[at..], how_many(three)))
}

// A fragment's bytes over the content from its site on.
pub fn lay_field(part: &mut [u8], bs: &[u8], mode: u32, site: u32, big: bool, to: Option<u64>)
    ensures { part.new ≡ sets part.old site (field_by big site bs.now mode (told_address to)) }
{
    let three = is_three(mode);
    match to {
        None => put_number(part, site, big, three, 0),
        Some(a) => put_number(
            part,
            site,
            big,
            three,
            add64(a, number_at(bs, site, big, three)),
        ),
    }
}
