// Where two lines stand at a place of the text: the first with a full line end behind it, and the one behind that.
#![tactic(auto)]

ghost use Rattle.pair_places.specs.Places.{PlacesAre};

use text_lines::LineAt;

// Two lines, one behind the other.
#[derive(Clone, Copy)]
pub struct PairPlaces {
    pub first: LineAt,
    pub second: LineAt,
}

// The two lines at a place, or none where no full line end stands behind the first; past the end of the text there is none.
pub fn pair_places(t: &[u8], p: usize) -> Option<PairPlaces>
    ensures { PlacesAre t.now p result }
{
    if t.len() < p {
        return None;
    }
    let first = text_lines::line_at(t, p);
    if first.ends == 0 {
        return None;
    }
    let second = text_lines::line_at(t, first.next);
    Some(PairPlaces { first, second })
}
