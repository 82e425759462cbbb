// What C and Rust link: what changed between two texts, over numbers and slices. It answers for every input and asks
// nothing of its caller.
#![tactic(auto)]

ghost use Rattle.exports_changes.specs.Numbers.{Answers};

use change_answer::{ChangedNumbers, changed_numbers};
use changes_of::changes_of;

// What changed between an older and a newer text, into a lent list.
#[unsafe(no_mangle)]
pub extern "C" fn gatecobalt_changes(older: &[u8], newer: &[u8], list: &mut [u32]) -> ChangedNumbers
    ensures { Answers older.now newer.now list.old result list.new }
{
    changed_numbers(changes_of(older, newer, list))
}
