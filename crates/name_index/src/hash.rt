// A name's place in the index.
ghost use Rattle.std.specs.Prelude.{◌≡◌, ◌<◌};
ghost use Rattle.name_index.specs.Index.{hash_of};

// A number below 4,096 that depends on the name's bytes alone.
pub(crate) fn hash(name: &[u8]) -> usize
    ensures { result ≡ hash_of name.now }
{
    let mut h: usize = 0;
    for b in name {
        h = (h * 31 + usize::from(*b)) % 4096;
    }
    h
}
