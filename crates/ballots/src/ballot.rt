// What one ballot says.
ghost use Rattle.std.specs.Prelude.{◌≡◌, slice_index_or};
ghost use Rattle.ballots.specs.Ballots.{ranks_of, unranked, over};

// The rank of a candidate without one: below every rank.
const UNRANKED: u16 = 256;

// A rank for each candidate, 0 where it has none. The smaller rank is the better one.
#[derive(Clone, Copy)]
pub struct Ballot<'a> {
    pub ranks: &'a [u8],
}

impl Ballot<'_> {
    fn rank(self, x: usize) -> u16
        ensures { result ≡ slice_index_or (ranks_of self.entry.ranks.now) x unranked }
    {
        match self.ranks.get(x) {
            None | Some(0) => UNRANKED,
            Some(rank) => u16::from(*rank),
        }
    }

    // Whether the ballot puts x over y.
    pub fn over(self, x: usize, y: usize) -> bool
        ensures { result ≡ over unranked (ranks_of self.entry.ranks.now) x y }
    {
        self.rank(x) < self.rank(y)
    }
}
