// A module by its file's name, for the page: its row, what standard error is told of it, and the totals with it.
#![tactic(auto)]

ghost use Rattle.kinds.specs.Kinds.{kinds_in};

use host::Host;
use kinds::Kinds;
use report_lines::{Image, Own, Tally, ToldForm};
use sink::{Buffer, Sink};
use totals::Totals;

// A row for each module, with its positions by kind.
struct Rows;

impl ToldForm for Rows {
    type Positions = Kinds;

    ghost told_positions = { kinds_in };

    fn positions(masks: &Image, map: &Image, n: usize) -> Kinds {
        kinds::kinds_in(masks, map, n)
    }

    fn refused(s: Sink, out: &mut Buffer, name: &[u8], number: usize, place: usize) -> Sink {
        page_row::refused_row(s, out, name, number, place)
    }

    fn read(s: Sink, out: &mut Buffer, name: &[u8], own: Own, positions: Kinds) -> Sink {
        let f = own.totals.figures;
        page_row::read_row(s, out, name, f, positions, own.verdict, own.counted)
    }
}

// The module of a file, shown under a name.
pub fn page_file(
    rt: &impl Host,
    s: Sink,
    out: &mut Buffer,
    t: Totals,
    file: &[u8],
    name: &[u8],
) -> Tally {
    report_lines::report_file::<Rows>(rt, s, out, t, file, name)
}
