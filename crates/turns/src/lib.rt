// Where group two is, and the answers of a turn.
#![tactic(auto)]

ghost use Rattle.std.specs.Prelude.{◌≡◌};
ghost use Rattle.turns.specs.Turns.{ending_of, after_of, stepped_of, standing_in, turn_of, two_of};

use homes::Home;
use sites::Line;

// How placing stands: so many fixup rows are made; or a refusal bars it, to be given if no 7 or 8 follows.
#[derive(Clone, Copy)]
pub enum Standing {
    Made { fixups: usize },
    Barred { number: u32, place: usize },
}

// Where group two is: how many areas, symbols and positions there are, where the next line begins, where the last record ended, how many T and R pairs there were, whether the reading goes on, how placing stands, and the home of the area of the last pair that was placed.
#[derive(Clone, Copy)]
pub struct Progress {
    pub areas: usize,
    pub symbols: usize,
    pub positions: usize,
    pub next: usize,
    pub stop: usize,
    pub lines: usize,
    pub on: bool,
    pub standing: Standing,
    pub home: Home,
}

// How many T and R pairs there are, where the records end, and how many fixup rows are made; or a refusal.
#[derive(Clone, Copy)]
pub enum Paired {
    All {
        lines: usize,
        stop: usize,
        fixups: usize,
    },
    Rejected {
        number: u32,
        at: usize,
    },
}

// A turn of group two: it goes on, or is done.
#[derive(Clone, Copy)]
pub enum Turn {
    Goes { going: Progress },
    Done { two: Paired },
}

// What is to be done with a pair: nothing more, or it is placed.
#[derive(Clone, Copy)]
pub enum Plan {
    Leave { turn: Turn },
    Place { line: Line, going: Progress },
}

// The answer where group two ends.
pub fn ending(g: Progress) -> Paired
    ensures { result ≡ ending_of g }
{
    let standing = g.standing;
    match standing {
        Standing::Made { fixups } => Paired::All {
            lines: g.lines,
            stop: g.stop,
            fixups: fixups,
        },
        Standing::Barred { number, place } => Paired::Rejected {
            number: number,
            at: place,
        },
    }
}

// A turn that ends here if the reading does not go on.
pub fn after(g: Progress) -> Turn
    ensures { result ≡ after_of g }
{
    if g.on {
        return Turn::Goes { going: g };
    }
    let two = ending(g);
    Turn::Done { two: two }
}

// One record further.
pub fn stepped(g: Progress, lines: usize, end: usize, next: usize, on: bool) -> Progress
    ensures { result ≡ stepped_of g lines end next on }
{
    let standing = g.standing;
    let home = g.home;
    Progress {
        areas: g.areas,
        symbols: g.symbols,
        positions: g.positions,
        next: next,
        stop: end,
        lines: lines,
        on: on,
        standing: standing,
        home: home,
    }
}

// The same with placing at another standing, behind a pair of an area with this home.
pub fn standing_in(going: Progress, home: Home, standing: Standing) -> Progress
    ensures { result ≡ standing_in going home standing }
{
    Progress {
        areas: going.areas,
        symbols: going.symbols,
        positions: going.positions,
        next: going.next,
        stop: going.stop,
        lines: going.lines,
        on: going.on,
        standing: standing,
        home: home,
    }
}

// The turn of a plan that places nothing more.
pub fn turn_of(plan: Plan) -> Turn
    ensures { result ≡ turn_of plan }
{
    match plan {
        Plan::Leave { turn } => turn,
        Plan::Place { line: _, going } => after(going),
    }
}

// The answer of the last turn.
pub fn two_of(u: Turn) -> Paired
    ensures { result ≡ two_of u }
{
    match u {
        Turn::Done { two } => two,
        Turn::Goes { going } => ending(going),
    }
}
