// The bytes of a name.
ghost use Rattle.std.specs.Prelude.{◌≡◌};
ghost use Rattle.row_texts.specs.GoodRows.{good_byte, good_name};

// The first byte that is too high for a name.
const FIRST_HIGH: u8 = 128;

// A byte below 128, no blank, CR or LF.
fn byte_good(b: u8) -> bool
    ensures { result ≡ good_byte b }
{
    if FIRST_HIGH <= b {
        return false;
    }
    if b == b' ' {
        return false;
    }
    if b == b'\t' {
        return false;
    }
    if b == b'\r' {
        return false;
    }
    b != b'\n'
}

// One such byte or more.
pub fn name_good(name: &[u8]) -> bool
    ensures { result ≡ good_name name.now }
{
    for b in name {
        if !byte_good(*b) {
            return false;
        }
    }
    !name.is_empty()
}
