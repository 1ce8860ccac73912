// The ballots of a test, one after the other.
ghost use Rattle.std.specs.Prelude.{◌≡◌, [], IfOk};

use std::alloc::{AllocError, Global};

// How many candidates and ballots there are, and the ranks of all ballots, whatever they are: a file of them may be
// refused.
#[derive(Drop)]
pub struct Votes {
    pub candidates: u8,
    pub ballots: u16,
    pub ranks: Vec<u8>,
}

impl Votes {
    ghost use Rattle.ballot_files.specs.Votes.{file_of, AddsBallots, HasNoBallots};

    // No ballots.
    pub fn new(heap: Global, candidates: u8) -> Votes
        ensures { HasNoBallots candidates result }
    {
        Votes {
            candidates,
            ballots: 0,
            ranks: Vec::new(heap),
        }
    }

    // A ballot more.
    pub fn ballot(self, ranks: &[u8]) -> Result<Votes, AllocError>
        ensures { IfOk result (AddsBallots self 1 ranks.now) }
    {
        self.times(1, ranks)
    }

    // So many ballots more, each with these ranks. Past the greatest number that a file can say, more are not counted.
    #[tactic(auto, using(crate::proofs::Repeated::repeated_append))]
    pub fn times(self, times: u16, ranks: &[u8]) -> Result<Votes, AllocError>
        ensures { IfOk result (AddsBallots self times ranks.now) }
    {
        let Votes {
            candidates,
            ballots,
            ranks: mut all,
        } = self;
        for _ in 0..times {
            all.extend_from_slice(ranks)?;
        }
        Ok(Votes {
            candidates,
            ballots: ballots.saturating_add(times),
            ranks: all,
        })
    }

    // The file.
    pub fn bytes(&self) -> Result<Vec<u8>, AllocError>
        ensures { IfOk result (λ file. file.items ≡ file_of self.now) }
    {
        let [low, high] = self.ballots.to_le_bytes();
        let mut file = vec![in *self.ranks.allocator(); self.candidates, low, high]?;
        file.extend_from_slice(&self.ranks)?;
        Ok(file)
    }
}
