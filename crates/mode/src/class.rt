// The class of a mode as a table of all 2,048 modes has it, and of one mode by its bits.
ghost use Rattle.std.specs.Prelude.{◌≡◌, ◌%◌, get_or};
ghost use Rattle.format.specs.Mode.{class_number};
ghost use Rattle.mode.specs.Class.{class_table, class_named, told_class, jump_of, told_jump};

use crate::bits::class_of;
use crate::classes::CLASSES;

// What a mode's relocation reaches.
#[derive(Clone, Copy)]
pub enum JumpType {
    Addr24,
    Addr19,
    Addr16,
    Addr11,
    Byte,
    Other,
}

// The class numbers of the modes 0 to 2,047, to be lent.
pub fn class_table() -> [u8; 2048]
    ensures { result ≡ class_table }
{
    CLASSES
}

// The number of a class, as the table has it.
pub fn class_number(class: JumpType) -> u8
    ensures { result ≡ class_number (told_class class) }
{
    match class {
        JumpType::Addr19 => 0,
        JumpType::Addr11 => 1,
        JumpType::Addr24 => 2,
        JumpType::Addr16 => 3,
        JumpType::Byte => 4,
        JumpType::Other => 5,
    }
}

// The class that a number of the table names.
#[tactic(auto, unfolding(crate::specs::Class::class_named))]
fn class_named(number: u8) -> JumpType
    ensures { told_class result ≡ class_named number }
{
    match number {
        0 => JumpType::Addr19,
        1 => JumpType::Addr11,
        2 => JumpType::Addr24,
        3 => JumpType::Addr16,
        4 => JumpType::Byte,
        _ => JumpType::Other,
    }
}

// The class that a lent table has for a mode, of which the low 11 bits count.
pub fn class_in(table: &[u8; 2048], mode: u32) -> JumpType
    ensures { told_class result ≡ class_named (get_or table.now (mode % 2048) 0) }
{
    let i = (mode % 2048) as usize;
    class_named(table[i])
}

// The class of a mode, or none for a mode over 2,047.
#[tactic(auto, unfolding(crate::specs::Class::jump_of))]
pub fn get_jump_type(mode: u16) -> Option<JumpType>
    ensures { told_jump result ≡ jump_of mode }
{
    if mode < 2048 {
        Some(class_of(u32::from(mode)))
    } else {
        None
    }
}
