// What writing will answer, with nothing changed: 21 for a row out of the pool or a name that stands twice, then 24.
ghost use Rattle.std.specs.Prelude.{◌≡◌, ◌≤◌, min};
ghost use Rattle.book.specs.Given.{given, most_bytes};
ghost use Rattle.book_plan.specs.Told.{summed, fit_of, planned, wrote_of};

use crate::sizes::body_length;
use book_given::{first_out, first_twice};
use book_rows::place_of;

// Why a book is not written, by its number, and the entry.
#[derive(Clone, Copy)]
pub struct Refusal {
    pub number: u8,
    pub place: u32,
}

// The room, as far as a book may fill it.
fn room_used(room: usize) -> usize
    ensures { result ≡ min room most_bytes }
{
    if room <= 4294967295 { room } else { 4294967295 }
}

// The length of the book of n entries, unless it is more than the room.
fn book_length(pool: &[u8], rows: &[u32], n: u32, room: usize) -> Option<usize>
    requires { room ≤ most_bytes }
    ensures { summed (given pool.now rows.now 0 n) n room ≡ fit_of result }
{
    let mut to: usize = place_of(n);
    for i in 0..n {
        if room < to {
            return None;
        }
        to += body_length(pool, rows, i);
    }
    if room < to {
        return None;
    }
    Some(to)
}

// The book of n entries, where each row lies in the pool and no name stands twice.
fn plan_length(pool: &[u8], rows: &[u32], n: u32, room: usize) -> Result<usize, Refusal>
    ensures { summed (given pool.now rows.now 0 n) n (min room most_bytes) ≡ wrote_of result }
{
    let used = room_used(room);
    match book_length(pool, rows, n, used) {
        None => Err(Refusal {
            number: 24,
            place: 0,
        }),
        Some(length) => Ok(length),
    }
}

// How long the book of n entries will be, or why it will not be written.
pub fn plan_book(pool: &[u8], rows: &[u32], n: u32, room: usize) -> Result<usize, Refusal>
    ensures { planned pool.now rows.now n room ≡ wrote_of result }
{
    let inside = first_out(pool, rows, n);
    if let Some(entry) = first_twice(pool, rows, inside) {
        return Err(Refusal {
            number: 21,
            place: entry,
        });
    }
    if inside < n {
        return Err(Refusal {
            number: 21,
            place: inside,
        });
    }
    plan_length(pool, rows, n, room)
}
