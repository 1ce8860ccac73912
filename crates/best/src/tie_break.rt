// Orders between candidates that are equal otherwise.
ghost use Rattle.std.specs.Prelude.{◌≡◌, replicate, slice_index};
ghost use Rattle.ballots.specs.Format.{most_candidates};
ghost use Rattle.best.specs.TieBreak.{before_by};
ghost use Rattle.best.specs.inner.NextPlace.{earlier};

use ballots::MOST_CANDIDATES;

// A tie-break order: the smaller key first, and equal keys by number. Whatever the keys are, of two candidates one is
// before the other.
#[derive(Clone, Copy)]
pub struct TieBreak {
    pub keys: [u8; MOST_CANDIDATES],
}

impl TieBreak {
    // The order of the candidates' numbers.
    pub fn by_number() -> TieBreak
        ensures { result.keys ≡ replicate most_candidates 0 }
    {
        TieBreak {
            keys: [0; MOST_CANDIDATES],
        }
    }

    fn key(&self, x: usize) -> u8
        ensures { result ≡ slice_index self.now.keys x }
    {
        self.keys.get(x).copied().unwrap_or(0)
    }

    // Whether x is before y.
    pub fn before(&self, x: usize, y: usize) -> bool
        ensures { result ≡ before_by self.now.keys x y }
    {
        (self.key(x), x) < (self.key(y), y)
    }

    // The earlier of x and the candidate that was found before, if one was.
    pub(crate) fn earlier(&self, found: Option<usize>, x: usize) -> usize
        ensures { result ≡ earlier (before_by self.now.keys) found x }
    {
        match found {
            None => x,
            Some(y) => if self.before(x, y) { x } else { y },
        }
    }
}
