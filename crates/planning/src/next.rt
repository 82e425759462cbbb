// What is to be done with the pair at a place, before it is placed.
ghost use Rattle.std.specs.Prelude.{◌≡◌, suc};
ghost use Rattle.header.specs.Told.{more_of};
ghost use Rattle.planning.specs.Plan.{one_more, plan_of};

use header::{Form, Width};
use pair_limits::plan_placed;
use sites::Line;
use steps::{Body, PairStep};
use turns::{Plan, Progress, Turn, after, ending, stepped};

// How many bytes an address has.
fn address_length(w: Width) -> usize
    ensures { result ≡ suc (more_of w) }
{
    match w {
        Width::Two => 2,
        Width::Three => 3,
        Width::Four => 4,
    }
}

// One pair more, as far as can be counted; a text of 65,536 bytes has fewer.
fn one_more(n: usize) -> usize
    ensures { result ≡ one_more n }
{
    if n < 18446744073709551615 { n + 1 } else { n }
}

// What is to be done with what stands at a place.
pub fn plan_of(step: PairStep, g: Progress, form: Form) -> Plan
    ensures { result ≡ plan_of step g form }
{
    let PairStep::Takes {
        body,
        end,
        next,
        on,
    } = step
    else {
        let two = ending(g);
        let turn = Turn::Done { two: two };
        return Plan::Leave { turn: turn };
    };
    let Body::Placed {
        address,
        count,
        area,
        fragments,
    } = body
    else {
        let turn = after(stepped(g, g.lines, end, next, on));
        return Plan::Leave { turn: turn };
    };
    let width = form.width;
    let line = Line {
        big: form.big,
        width: address_length(width),
        place: g.next,
        address: address,
        bytes: count,
        fragments: fragments,
        area: cells::wide(area),
    };
    plan_placed(line, stepped(g, one_more(g.lines), end, next, on), g.next)
}
