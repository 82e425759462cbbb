// What the H line tells of a module: the first line of group one that has its form, compared with the counted A and S lines.
#![tactic(auto)]

ghost use Rattle.std.specs.Prelude.{◌≡◌};
ghost use Rattle.header.specs.Told.{form_of};
ghost use Rattle.counts.specs.Counts.{compared, told_from};
ghost use Rattle.h_line.specs.Told.{two_of};
ghost use Rattle.counts_of.specs.Told.{told_counted};

use header::Form;
use walk::first_told;

mod walk;

pub use walk::{entry_end, group_one_end};

// What is told and what was counted are equal, or not equal, or nothing is told.
#[derive(Clone, Copy)]
pub enum Counted {
    Equal,
    NotEqual,
    NotTold,
}

// What the text behind a header line that ends at head tells, compared with the counted areas and symbols.
pub fn told_counts(t: &[u8], head: usize, form: Form, areas: usize, symbols: usize) -> Counted
    ensures { told_counted result ≡ compared (told_from (form_of form) t.now head) (two_of areas symbols) }
{
    let Some(told) = first_told(t, head, form) else {
        return Counted::NotTold;
    };
    if told.areas as usize == areas && told.symbols as usize == symbols {
        return Counted::Equal;
    }
    Counted::NotEqual
}
