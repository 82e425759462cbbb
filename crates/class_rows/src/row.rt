// One row a class: what it touches, joins and leaves on site, and the bits that its target goes by.
ghost use Rattle.std.specs.Prelude.{◌≡◌};
ghost use Rattle.format.specs.Mode.{touched_of, size_of, gives_of};
ghost use Rattle.mode.specs.Class.{told_class};
ghost use Rattle.class_rows.specs.Row.{row_of};

use mode::JumpType;

// Entries touched (Other has one more with bit 8), bytes on site, bytes joined into the number, the mask of a moved opcode,
// the sign bit of the start, the tested bit of the number (Other's is 23 with bit 8), and how many low bits the target has of its own.
#[derive(Clone, Copy)]
pub struct Row {
    pub touched: usize,
    pub size: usize,
    pub joins: usize,
    pub mask: u8,
    pub high: u64,
    pub tested: u64,
    pub closing: u64,
}

// The bits of a moved opcode that stay.
const OPCODE_MASK: u8 = 0x1F;

// In the order of the class numbers: Addr19, Addr11, Addr24, Addr16, Byte, Other.
const ROWS: [Row; 6] = [
    Row {
        touched: 4,
        size: 3,
        joins: 3,
        mask: OPCODE_MASK,
        high: 23,
        tested: 23,
        closing: 24,
    },
    Row {
        touched: 3,
        size: 2,
        joins: 2,
        mask: OPCODE_MASK,
        high: 10,
        tested: 15,
        closing: 16,
    },
    Row {
        touched: 3,
        size: 3,
        joins: 3,
        mask: 0,
        high: 23,
        tested: 23,
        closing: 24,
    },
    Row {
        touched: 2,
        size: 2,
        joins: 2,
        mask: 0,
        high: 15,
        tested: 15,
        closing: 16,
    },
    Row {
        touched: 1,
        size: 1,
        joins: 1,
        mask: 0,
        high: 7,
        tested: 7,
        closing: 16,
    },
    Row {
        touched: 2,
        size: 1,
        joins: 0,
        mask: 0,
        high: 0,
        tested: 15,
        closing: 16,
    },
];

// The row of a class.
pub fn row_of(class: JumpType) -> Row
    ensures { result ≡ row_of (told_class class) }
{
    match class {
        JumpType::Addr19 => ROWS[0],
        JumpType::Addr11 => ROWS[1],
        JumpType::Addr24 => ROWS[2],
        JumpType::Addr16 => ROWS[3],
        JumpType::Byte => ROWS[4],
        JumpType::Other => ROWS[5],
    }
}

// How many entries a mode of the class touches; three says that its bit 8 is set.
pub fn touched(class: JumpType, three: bool) -> usize
    ensures { result ≡ touched_of (told_class class) three }
{
    let row = row_of(class);
    let JumpType::Other = class else {
        return row.touched;
    };
    if three { 3 } else { row.touched }
}

// How many bytes stand on site afterwards.
pub fn get_onsite_size(class: JumpType) -> usize
    ensures { result ≡ size_of (told_class class) }
{
    let row = row_of(class);
    row.size
}

// Whether a mode of the class can give a fixup.
pub fn gives(class: JumpType, mode: u32) -> bool
    ensures { result ≡ gives_of (told_class class) mode }
{
    match class {
        JumpType::Other => false,
        JumpType::Byte => mode / 4 % 2 == 1,
        _ => mode / 1024 % 2 == 0,
    }
}
