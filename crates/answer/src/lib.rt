// What a reading answers: a refusal, or the counts with the verdict.
#![tactic(auto)]

ghost use Rattle.std.specs.Prelude.{◌≡◌};
ghost use Rattle.answer.specs.Answer.{AcceptedIs, told_verdict, verdict_at};

// How much there is: areas, symbols, T and R pairs, kept areas, positions of their images, fixups.
#[derive(Clone, Copy)]
pub struct Counts {
    pub areas: usize,
    pub symbols: usize,
    pub lines: usize,
    pub kept: usize,
    pub positions: usize,
    pub fixups: usize,
}

// Finished if no byte is left, else the place of the next byte.
#[derive(Clone, Copy)]
pub enum Verdict {
    Finished,
    Stopped { place: usize },
}

// A refusal: its number, and the place in the text that it speaks of.
#[derive(Clone, Copy)]
pub struct Refusal {
    pub number: u32,
    pub place: usize,
}

// What is told of a text that is accepted: the counts and the verdict.
#[derive(Clone, Copy)]
pub struct Accepted {
    pub counts: Counts,
    pub verdict: Verdict,
}

// What a reading answers.
pub type Answer = Result<Accepted, Refusal>;

// The verdict on a text of n bytes of which the reading took those before stop.
fn verdict_at(n: usize, stop: usize) -> Verdict
    ensures { told_verdict result ≡ verdict_at n stop }
{
    if stop == n {
        return Verdict::Finished;
    }
    Verdict::Stopped { place: stop }
}

// The counts, with the verdict on a text of n bytes of which the reading took those before stop.
pub fn accept(counts: Counts, n: usize, stop: usize) -> Answer
    ensures { AcceptedIs counts n stop result }
{
    let verdict = verdict_at(n, stop);
    Ok(Accepted { counts, verdict })
}
