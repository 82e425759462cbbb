// The limits of a pair that is to be placed: 256 content bytes and 64 fragments; refusals 7 and 8.
#![tactic(auto)]

ghost use Rattle.std.specs.Prelude.{◌≡◌};
ghost use Rattle.pair_limits.specs.Limits.{refused_pair, placed_of};

use sites::Line;
use turns::{Paired, Plan, Progress, Turn};

// A refusal of the pair at p.
fn refuse_pair(number: u32, p: usize) -> Plan
    ensures { result ≡ refused_pair number p }
{
    let two = Paired::Rejected {
        number: number,
        at: p,
    };
    let turn = Turn::Done { two: two };
    Plan::Leave { turn: turn }
}

// A pair of so many content bytes and fragments: 7 before 8; else it is placed.
pub fn plan_placed(line: Line, going: Progress, p: usize) -> Plan
    ensures { result ≡ placed_of line going p }
{
    if 256 < line.bytes {
        return refuse_pair(7, p);
    }
    if 64 < line.fragments {
        return refuse_pair(8, p);
    }
    Plan::Place {
        line: line,
        going: going,
    }
}
