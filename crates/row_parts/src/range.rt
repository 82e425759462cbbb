// Rows that stand together.
ghost use Rattle.std.specs.Prelude.{◌≡◌};
ghost use Rattle.row_parts.specs.Ranges.{same_as};

// Rows from one index on, up to another.
#[derive(Clone, Copy)]
pub struct Range {
    pub start: usize,
    pub end: usize,
}

// Whether two answers are the same.
pub fn same_as(b: bool, c: bool) -> bool
    ensures { result ≡ same_as b c }
{
    b == c
}
