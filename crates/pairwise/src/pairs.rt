// Pairs of candidates, one by one.
ghost use Rattle.std.specs.Prelude.{◌≡◌};
ghost use Rattle.std.specs.Iterator.{YieldsFirst, item_count};
ghost use Rattle.pairwise.specs.Pairs.{pairs, to_come};

// The pairs that are still to come: those of x with the candidates from y on, and those of the candidates behind x.
#[derive(Clone, Drop)]
pub struct Pairs {
    candidates: usize,
    x: usize,
    y: usize,
}

impl Pairs {
    // The pairs of different candidates, in order of the first, then of the second.
    pub fn of(candidates: usize) -> Pairs
        ensures { to_come result ≡ pairs candidates }
    {
        Pairs {
            candidates,
            x: 0,
            y: 0,
        }
    }
}

impl Iterator for Pairs {
    type Item = (usize, usize);

    ghost next_gives = { YieldsFirst to_come };

    ghost remaining = { item_count to_come };

    fn next(&mut self) -> Option<(usize, usize)> {
        if self.x >= self.candidates {
            return None;
        }
        let y = self.y + usize::from(self.y == self.x);
        if y < self.candidates {
            self.y = y + 1;
            return Some((self.x, y));
        }
        self.x += 1;
        if self.x >= self.candidates {
            return None;
        }
        self.y = 1;
        Some((self.x, 0))
    }
}
