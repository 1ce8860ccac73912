// Counts that are still growing.
ghost use Rattle.std.specs.Prelude.{◌≡◌, ℕ, ◌+◌, ◌<◌, ◌≤◌, length};
ghost use Rattle.ballots.specs.Format.{most_candidates, most_ballots};
ghost use Rattle.pairwise.specs.Grids.{cell};
ghost use Rattle.pairwise.specs.Pairwise.{preference};
ghost use Rattle.pairwise.specs.inner.Recent.{byte, BytesBounded, BothBounded};

use crate::CELLS;
use crate::additions::{RECENT, add_ballot, add_recent};
use ballots::Ballot;

// The counts of the ballots so far, in two parts: what the last few ballots add stays in bytes,
// where adding is fastest, until there are as many of them as a byte can count.
#[derive(Drop)]
pub(crate) struct Counter {
    counts: [u16; CELLS],
    recent: [u8; RECENT],
    // How many ballots are counted in `recent`.
    waiting: u8,
    ghost few: { BytesBounded waiting recent },
    ghost fits: { BothBounded most_ballots counts recent },
}

impl Counter {
    ghost use Rattle.pairwise.specs.inner.Counters.{count_in};

    // The counts of no ballots.
    pub(crate) fn new() -> Counter
        ensures { (x y : ℕ) → count_in result x y ≡ 0 }
    {
        Counter {
            counts: [0; CELLS],
            recent: [0; RECENT],
            waiting: 0,
        }
    }

    // Counts one ballot more.
    pub(crate) fn add(&mut self, ballot: Ballot<'_>)
        requires few { length ballot.ranks.now ≤ most_candidates }
        requires room { (x y : ℕ) → x < most_candidates → y < most_candidates →
            count_in self.old x y < most_ballots }
        ensures { (x y : ℕ) → x < most_candidates → y < most_candidates →
            count_in self.new x y
            ≡ count_in self.old x y + preference ballot.entry.ranks.now x y }
    {
        self.make_room();
        add_ballot(&mut self.recent, ballot);
        self.waiting += 1;
    }

    // Where the bytes are full, the counts in them are settled: else one more would run over.
    fn make_room(&mut self)
        ensures waiting { self.new.waiting < 255 }
        ensures same { (x y : ℕ) → x < most_candidates → y < most_candidates →
            count_in self.new x y ≡ count_in self.old x y }
    {
        if self.waiting == u8::MAX {
            self.settle();
        }
    }

    // Adds the counts that stay in bytes to the others.
    fn settle(&mut self)
        ensures none { self.new.waiting ≡ 0 }
        ensures counts { (x y : ℕ) → x < most_candidates → y < most_candidates →
            cell self.new.counts x y ≡ count_in self.old x y }
        ensures recent { (x y : ℕ) → byte self.new.recent x y ≡ 0 }
    {
        add_recent(&mut self.counts, &self.recent);
        self.recent = [0; RECENT];
        self.waiting = 0;
    }

    // The counts of all ballots.
    pub(crate) fn into_cells(mut self) -> [u16; CELLS]
        ensures { (x y : ℕ) → x < most_candidates → y < most_candidates →
            cell result x y ≡ count_in self x y }
    {
        self.settle();
        self.counts
    }
}
