// The end of a record.
ghost use Rattle.std.specs.Prelude.{◌≡◌};
ghost use Rattle.format.specs.Lists.{pick};

// Where a record ends: behind its line end in the ended reading, else where its line was used up.
pub fn record_end(ended: bool, next: usize, used: usize) -> usize
    ensures { result ≡ pick ended next used }
{
    if ended { next } else { used }
}
