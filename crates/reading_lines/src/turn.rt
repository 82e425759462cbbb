// One turn of group two: the pair at a place read, counted and placed; refusals 10 to 13.
ghost use Rattle.std.specs.Prelude.{◌≡◌, ◌&&◌, ◌≤◌, eqb, length};
ghost use Rattle.homes.specs.Home.{home_at};
ghost use Rattle.header.specs.Told.{form_of};
ghost use Rattle.reading_lines.specs.Onward.{standing_of, filled_of, kept_in, Ready, PlaceReady, Columns, Advances, TurnIs, CarriedBy, onward_at};

use area_rows::{known_bits, put_known};
use header::Form;
use homes::Home;
use place::Placed;
use planning::plan_of;
use sites::{Filled, Line};
use steps::pair_step;
use turns::{Plan, Progress, Standing, Turn, after, standing_in, turn_of};

// How placing stands after a pair.
fn standing_of(r: Placed) -> Standing
    ensures { result ≡ standing_of r }
{
    match r {
        Placed::Done(k, _) => Standing::Made { fixups: k },
        Placed::Stopped(n, p) => Standing::Barred {
            number: n,
            place: p,
        },
        Placed::Misfit => Standing::Barred {
            number: 0,
            place: 0,
        },
    }
}

// How many rows there are, and the known bits of a pair's area.
fn filled_of(g: Progress, fixups: usize, known: u32) -> Filled
    ensures { result ≡ filled_of g fixups known }
{
    Filled {
        areas: g.areas,
        symbols: g.symbols,
        fixups: fixups,
        known: known,
    }
}

// The known bits of area i after a pair, in its row; they stay where the pair is refused.
fn keep_known(areas: &mut [u32], i: usize, r: Placed)
    ensures { areas.new ≡ kept_in areas.old i r }
{
    match r {
        Placed::Done(_, known) => put_known(areas, i, known),
        Placed::Stopped(_, _) => {}
        Placed::Misfit => {}
    }
}

// The home of an area: that of the last pair, if its area is the same.
fn home_for(areas: &[u32], going: Progress, area: usize) -> Home
    requires { going.home ≡ home_at areas.now going.areas going.home.area }
    ensures { result ≡ home_at areas.now going.areas area }
{
    let last = going.home;
    if last.area == area {
        return last;
    }
    homes::home_at(areas, going.areas, area)
}

// Whether a pair has neither content nor fragments.
fn is_empty(line: Line) -> bool
    ensures { result ≡ (eqb line.bytes 0 && eqb line.fragments 0) }
{
    if line.bytes == 0 {
        return line.fragments == 0;
    }
    false
}

// A pair placed, if no refusal bars it. An empty one changes nothing, so its area is not looked for.
fn place_body(
    line: Line,
    going: Progress,
    bytes: &[u8; 256],
    ms: &[u32; 64],
    es: &[u32; 64],
    xs: &[u32; 64],
    areas: &mut [u32],
    symbols: &[u32],
    values: &mut [u8],
    masks: &mut [u8],
    rows: &mut [u32],
) -> Turn
    requires { PlaceReady line going bytes.now areas.old rows.old }
    ensures { (Advances line going bytes.now ms.now es.now xs.now areas.old symbols.now values.old masks.old rows.old result values.new masks.new rows.new) × (CarriedBy going.areas areas.old masks.old result areas.new masks.new) }
{
    let s = going.standing;
    if is_empty(line) {
        return after(standing_in(going, going.home, s));
    }
    let Standing::Made { fixups } = s else {
        return after(standing_in(going, going.home, s));
    };
    let filled = filled_of(going, fixups, known_bits(areas, line.area));
    let home = home_for(areas, going, line.area);
    let r = place::place_pair(
        line, home, bytes, ms, es, xs, areas, symbols, filled, values, masks, rows,
    );
    keep_known(areas, line.area, r);
    after(standing_in(going, home, standing_of(r)))
}

// One turn: the pair at the place where group two is. What was lent for its bytes and fragments may hold those of the pair before.
pub(crate) fn take_turn(
    t: &[u8],
    g: Progress,
    form: Form,
    ended: bool,
    areas: &mut [u32],
    symbols: &[u32],
    bs: &mut [u8; 256],
    ms: &mut [u32; 64],
    es: &mut [u32; 64],
    xs: &mut [u32; 64],
    values: &mut [u8],
    masks: &mut [u8],
    rows: &mut [u32],
) -> Turn
    requires { (Ready t.now areas.old g) × (length t.now ≤ 65536) × (9216 ≤ length rows.old) × (Columns bs.old ms.old es.old xs.old) }
    ensures { (TurnIs ended (form_of form) t.now areas.old symbols.now g.next (onward_at ended (form_of form) t.now areas.old symbols.now g values.old masks.old rows.old) result values.new masks.new rows.new) × (Columns bs.new ms.new es.new xs.new) × (CarriedBy g.areas areas.old masks.old result areas.new masks.new) }
{
    let step = pair_step(t, g.next, form, ended, bs, ms, es, xs);
    let plan = plan_of(step, g, form);
    let Plan::Place { line, going } = plan else {
        return turn_of(plan);
    };
    place_body(
        line, going, bs, ms, es, xs, areas, symbols, values, masks, rows,
    )
}
