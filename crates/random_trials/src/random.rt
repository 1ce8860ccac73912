// Random numbers, and random files of ballots: the same ones at every run.
ghost use Rattle.std.specs.Prelude.{◌≤◌, ◌-◌};
ghost use Rattle.random_trials.specs.declared.random.TheConstants.{MOST_LEVELS};

use ballot_files::Votes;
use ballots::Bits;
use best::TieBreak;
use slow_count::MOST;
use std::alloc::{AllocError, Global};

// Where the numbers begin.
const SEED: u64 = 0x9e37_79b9_7f4a_7c15;

// The greatest number of ballots of a random file.
const MOST_BALLOTS: u8 = 40;

// The greatest number of levels, and so the greatest rank, of a random file.
pub const MOST_LEVELS: u8 = 60;

// The generator xorshift64*, and where the files are made.
#[derive(Drop)]
pub struct Random {
    pub heap: Global,
    state: u64,
}

// How a random file comes to its ranks: as many levels, and blanks one in so many.
#[derive(Clone, Copy)]
pub struct Ranks {
    pub levels: u8,
    pub blank_in: u8,
    ghost few: { levels ≤ MOST_LEVELS },
}

impl Random {
    pub fn new(heap: Global) -> Random {
        Random { heap, state: SEED }
    }

    fn number(&mut self) -> u64 {
        let mut x = self.state;
        x ^= x >> 12;
        x ^= x << 25;
        x ^= x >> 27;
        self.state = x;
        x.wrapping_mul(0x2545_f491_4f6c_dd1d) >> 32
    }

    // A number below the limit; 0 where there is none.
    pub fn below(&mut self, limit: u8) -> u8
        ensures { result ≤ limit - 1 }
    {
        self.place(usize::from(limit)) as u8
    }

    // A place in so many bytes; 0 where there is none.
    pub fn place(&mut self, length: usize) -> usize
        ensures { result ≤ length - 1 }
    {
        if length == 0 {
            return 0;
        }
        self.number() as usize % length
    }

    // True once in so many times.
    pub fn once_in(&mut self, times: u8) -> bool {
        self.below(times) == 0
    }

    // A set of candidates, as bits.
    pub fn set(&mut self) -> Bits {
        Bits::from(self.below(1 << MOST))
    }

    // Few levels and so many equal ranks, or many; few blanks, or many, or none.
    pub fn ranks(&mut self) -> Ranks {
        let levels = match self.below(4) {
            0 => 2,
            1 => 3,
            2 => 6,
            _ => MOST_LEVELS,
        };
        let blank_in = match self.below(3) {
            0 => 2,
            1 => 6,
            _ => 255,
        };
        Ranks { levels, blank_in }
    }

    pub fn rank(&mut self, ranks: Ranks) -> u8
        ensures { result ≤ MOST_LEVELS }
    {
        if self.once_in(ranks.blank_in) {
            0
        } else {
            self.below(ranks.levels) + 1
        }
    }

    // Few ballots, or up to the greatest number.
    pub fn ballots(&mut self) -> u8 {
        if self.once_in(3) {
            self.below(6)
        } else {
            self.below(MOST_BALLOTS + 1)
        }
    }

    // Votes for one candidate at least, and at most as many as the slow count takes.
    pub fn votes(&mut self) -> Result<Votes, AllocError> {
        let candidates = self.below(MOST as u8) + 1;
        let ballots = self.ballots();
        let ranks = self.ranks();
        let mut votes = Votes::new(self.heap, candidates);
        let mut ballot = [0; MOST];
        for _ in 0..ballots {
            for rank in ballot.iter_mut().take(usize::from(candidates)) {
                *rank = self.rank(ranks);
            }
            votes = votes.ballot(&ballot[..usize::from(candidates)])?;
        }
        Ok(votes)
    }

    // A tie-break order, in which some keys are equal.
    pub fn tie_break(&mut self) -> TieBreak {
        TieBreak {
            keys: std::array::from_fn(|_| self.below(5)),
        }
    }
}
