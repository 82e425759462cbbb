// One entry more in the rows of areas and symbols; refusals 5 and 6.
#![tactic(auto)]

ghost use Rattle.std.specs.Prelude.{◌≡◌};
ghost use Rattle.one_entry.specs.Adds.{Adds, room};

use entry_line::Entry;
use put_rows::{put_area, put_symbol};
use rooms::AREA_ROOM;

// How many areas and symbols there may be.
const AREAS: usize = 64;

const SYMBOLS: usize = 1024;

// How many rows there are of each kind.
#[derive(Clone, Copy)]
pub struct Rows {
    pub areas: usize,
    pub symbols: usize,
}

// The number of the refusal where there is no row for an entry.
#[derive(Clone, Copy)]
pub struct Full {
    pub number: u32,
}

// So many rows.
fn room(areas: usize, symbols: usize) -> Result<Rows, Full>
    ensures { result ≡ room areas symbols }
{
    Ok(Rows { areas, symbols })
}

// One entry more, from a line at p, behind na areas and ns symbols.
pub fn add_entry(
    entry: Entry,
    p: usize,
    na: usize,
    ns: usize,
    areas: &mut [u32; AREA_ROOM],
    symbols: &mut [u32],
) -> Result<Rows, Full>
    ensures { Adds entry p na ns areas.old symbols.old result areas.new symbols.new }
{
    match entry {
        Entry::Ignored => room(na, ns),
        Entry::Area {
            name,
            len,
            size,
            flags,
            addr,
        } => {
            if AREAS <= na {
                return Err(Full { number: 5 });
            }
            put_area(areas, na, p, name, len, size, flags, addr);
            room(na + 1, ns)
        }
        Entry::Symbol {
            name,
            len,
            is_ref,
            value,
        } => {
            if SYMBOLS <= ns {
                return Err(Full { number: 6 });
            }
            put_symbol(symbols, ns, p, name, len, is_ref, value, na);
            room(na, ns + 1)
        }
    }
}
