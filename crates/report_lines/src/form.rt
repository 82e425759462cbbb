// How a report tells of modules: by lines, or in another form that a crate above gives.
ghost use Rattle.std.specs.Prelude.{◌≡◌, ℕ, List};

use crate::words::{read_line, refused_line};
use counts_of::Counted;
use ended_answer::Verdict;
use rooms::IMAGE_ROOM;
use sink::{Buffer, Sink};
use totals::Totals;

// Values, masks or marks of all positions.
pub type Image = [u8; IMAGE_ROOM];

// A module that is read: its own totals, with its verdict and the H line's word.
#[derive(Clone, Copy)]
pub struct Own {
    pub totals: Totals,
    pub verdict: Verdict,
    pub counted: Counted,
}

// What is written of a module, and what of its positions that takes beside the totals.
pub trait Form {
    type Positions: Copy;

    // What may be told of n positions, by their masks and the marks of those that a line writes: anything, where a form says no more.
    ghost may_tell: { List ℕ → List ℕ → ℕ → Self.Positions → Type 0 } = { λ masks map n told. Unit {0} };

    // What is told of them.
    fn positions(masks: &Image, map: &Image, n: usize) -> Self::Positions
        ensures { may_tell masks.now map.now n result };

    // A module that is refused.
    fn refused(s: Sink, out: &mut Buffer, name: &[u8], number: usize, place: usize) -> Sink;

    // A module that is read.
    fn read(s: Sink, out: &mut Buffer, name: &[u8], own: Own, positions: Self::Positions) -> Sink;
}

// A form that says what it tells of positions.
pub trait ToldForm {
    type Positions: Copy;

    // What is told of n positions, by their masks and the marks of those that a line writes.
    ghost told_positions: { List ℕ → List ℕ → ℕ → Self.Positions };

    // The same, computed.
    fn positions(masks: &Image, map: &Image, n: usize) -> Self::Positions
        ensures { result ≡ told_positions masks.now map.now n };

    // A module that is refused.
    fn refused(s: Sink, out: &mut Buffer, name: &[u8], number: usize, place: usize) -> Sink;

    // A module that is read.
    fn read(s: Sink, out: &mut Buffer, name: &[u8], own: Own, positions: Self::Positions) -> Sink;
}

// Such a form tells that and nothing else.
impl<F: ToldForm> Form for F {
    type Positions = F::Positions;

    ghost may_tell = { λ masks map n told. told ≡ F.told_positions masks map n };

    #[inline(always)]
    fn positions(masks: &Image, map: &Image, n: usize) -> F::Positions {
        <F as ToldForm>::positions(masks, map, n)
    }

    #[inline(always)]
    fn refused(s: Sink, out: &mut Buffer, name: &[u8], number: usize, place: usize) -> Sink {
        <F as ToldForm>::refused(s, out, name, number, place)
    }

    #[inline(always)]
    fn read(s: Sink, out: &mut Buffer, name: &[u8], own: Own, positions: F::Positions) -> Sink {
        <F as ToldForm>::read(s, out, name, own, positions)
    }
}

// A line for each module.
pub struct Lines;

impl ToldForm for Lines {
    type Positions = ();

    ghost told_positions = { λ masks map n. tt };

    fn positions(_masks: &Image, _map: &Image, _n: usize) {}

    fn refused(s: Sink, out: &mut Buffer, name: &[u8], number: usize, place: usize) -> Sink {
        refused_line(s, out, name, number, place)
    }

    fn read(s: Sink, out: &mut Buffer, name: &[u8], own: Own, _positions: ()) -> Sink {
        read_line(s, out, name, own.totals, own.verdict, own.counted)
    }
}

#[cfg(test)]
mod tests {
    use super::*;

    // A form that says nothing of what it tells, as one in a crate above may.
    struct First;

    impl Form for First {
        type Positions = [u8; 2];

        fn positions(masks: &Image, map: &Image, _n: usize) -> [u8; 2] {
            [masks[0], map[0]]
        }

        fn refused(
            s: Sink,
            _out: &mut Buffer,
            _name: &[u8],
            _number: usize,
            _place: usize,
        ) -> Sink {
            s
        }

        fn read(s: Sink, _out: &mut Buffer, _name: &[u8], _own: Own, _positions: [u8; 2]) -> Sink {
            s
        }
    }

    // A form that says what it tells.
    struct Count;

    impl ToldForm for Count {
        type Positions = usize;

        ghost told_positions = { λ masks map n. n };

        fn positions(_masks: &Image, _map: &Image, n: usize) -> usize {
            n
        }

        fn refused(
            s: Sink,
            _out: &mut Buffer,
            _name: &[u8],
            _number: usize,
            _place: usize,
        ) -> Sink {
            s
        }

        fn read(s: Sink, _out: &mut Buffer, _name: &[u8], _own: Own, _positions: usize) -> Sink {
            s
        }
    }

    #[test]
    fn positions_of_both(rt: HostRuntime) {
        let masks = [31; IMAGE_ROOM];
        let map = [1; IMAGE_ROOM];
        assert_eq!(rt; <First as Form>::positions(&masks, &map, 3), [31, 1]);
        assert_eq!(rt; <Count as Form>::positions(&masks, &map, 3), 3);
    }
}
