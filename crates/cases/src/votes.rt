// The votes of the cases, and their files.
use ballot_files::Votes;
use std::alloc::{AllocError, Global};

// How many candidates there are, and the ballots: how often each comes, and its ranks.
#[derive(Clone, Copy)]
pub struct Vote(pub u8, pub &'static [(u16, &'static [u8])]);

// The most common vote of the cases, a circle: 0 wins against 1, 1 against 2, and 2 against 0.
pub const CIRCLE: Vote = Vote(3, &[(4, &[1, 2, 3]), (3, &[3, 1, 2]), (2, &[2, 3, 1])]);

// Two clones, 0 and 3.
pub const CLONES: Vote = Vote(
    4,
    &[
        (2, &[1, 3, 4, 2]),
        (2, &[2, 3, 4, 1]),
        (3, &[3, 1, 2, 4]),
        (2, &[2, 4, 1, 3]),
    ],
);

// Two candidates: a ballot that puts them equal, one for each of them.
pub const EVEN: Vote = Vote(2, &[(1, &[1, 1]), (1, &[1, 2]), (1, &[2, 1])]);

impl Vote {
    pub fn file(self, heap: Global) -> Result<Vec<u8>, AllocError> {
        let Vote(candidates, ballots) = self;
        let mut votes = Votes::new(heap, candidates);
        for (times, ranks) in ballots {
            votes = votes.times(*times, ranks)?;
        }
        votes.bytes()
    }
}
