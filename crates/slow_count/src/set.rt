// Sets of candidates, as the bits of a number.
ghost use Rattle.std.specs.Prelude.{◌≡◌};
ghost use Rattle.slow_count.specs.Sets.{has};

// How many candidates a set has room for.
pub(crate) const ROOM: usize = 64;

// Whether x is in the set.
pub(crate) fn has(set: u64, x: usize) -> bool
    ensures { result ≡ has set x }
{
    x < ROOM && (set >> x) & 1 == 1
}
