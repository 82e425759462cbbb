// Holds opening and finding to recorded answers and prints how many differ. The sample on standard input was made by
// `oracle/book/book sample 1`: books, every cut and changed bytes of them, told by a second writing of the rules and not by the proved code.
#![tactic(auto)]

mod record;

use record::Case;

// Room for a file and a name.
const ROOM: usize = 327680;

// More records than any sample has.
const TURNS: u64 = 100000000;

// How many answers were held to the recorded ones, and how many were not the same.
#[derive(Clone, Copy)]
struct Tally {
    answers: u64,
    differ: u64,
}

// Whether a name is found as recorded.
fn same_found(book: &[u8], name: &[u8], c: Case) -> bool {
    match book_find::find_name(book, name) {
        None => c.missing == 23,
        Some(found) => {
            c.missing == 0 && u64::from(found.place) == c.at && u64::from(found.size) == c.size
        }
    }
}

// Whether a file opens as recorded, and the name is found in it.
fn opens(book: &[u8], name: &[u8], c: Case) -> bool {
    match book_open::open_book(book) {
        Err(why) => u64::from(why.number) == c.number && why.place as u64 == c.place,
        Ok(entries) => {
            c.number == 0 && u64::from(entries) == c.place && same_found(book, name, c)
        }
    }
}

// The same of a file with a name behind it.
fn holds(bytes: &[u8], c: Case) -> bool {
    let name = c.name;
    if bytes.len() < name {
        return false;
    }
    let at = bytes.len() - name;
    opens(&bytes[0..at], &bytes[at..], c)
}

// One more answer.
fn counted(t: Tally, same: bool) -> Tally {
    Tally {
        answers: t.answers.wrapping_add(1),
        differ: t.differ.wrapping_add(u64::from(!same)),
    }
}

// Holds all records of standard input to what is answered. The count of turns, which no sample uses up,
// is there since a proved loop has to end.
fn all(room: &mut [u8]) -> Tally {
    let mut t = Tally {
        answers: 0,
        differ: 0,
    };
    for _ in 0..TURNS {
        let Some(r) = record::next() else {
            return t;
        };
        if record::fill(room, r.length) < r.length {
            return counted(t, false);
        }
        t = counted(t, holds(record::first(room, r.length), r.case));
    }
    t
}

// The same with the whole room.
fn whole(room: &mut [u8; ROOM]) -> Tally {
    all(room)
}

fn main() {
    let mut room = [0u8; ROOM];
    let t = whole(&mut room);
    io::print_decimal(1, t.answers);
    io::write_all(1, b" answers, ");
    io::print_decimal(1, t.differ);
    io::write_all(1, b" differ\n");
}
