// Whether two names are equal.
ghost use Rattle.std.specs.Prelude.{◌≡◌};
ghost use Rattle.difference.specs.Module.{same_numbers};

// Names of one length mostly differ in their first bytes, which are compared in place; `==` is a call that looks at groups of bytes.
const HEAD: usize = 16;

// Whether two names have the same bytes.
#[inline(always)]
pub fn same_name(a: &[u8], b: &[u8]) -> bool
    ensures { result ≡ same_numbers a.now b.now }
{
    if a.len() != b.len() {
        return false;
    }
    for i in 0..a.len().min(HEAD) {
        if a[i] != b[i] {
            return false;
        }
    }
    a == b
}
