// Pairwise counts, and what follows from their wins.
ghost use Rattle.std.specs.Prelude.{◌≡◌, length};
ghost use Rattle.pairwise.specs.Grids.{number_for};
ghost use Rattle.pairwise.specs.Counts.{win_by};
ghost use Rattle.certificate.specs.Certified.{certificate_by};
ghost use Rattle.certificate.specs.inner.Parts.{entry_by, all_entries};

use crate::{NUMBER_SIZE, SET_SIZE};
use arrayvec::ArrayVec;
use ballots::{BallotFile, CandidateSet, MOST_CANDIDATES};
use pairwise::{Pairs, Pairwise};
use paths::Strengths;

// The counts, and the strengths by their wins.
#[derive(Clone, Copy)]
pub struct Counted {
    pub pairwise: Pairwise,
    pub strengths: Strengths,
    ghost few: { strengths.wins.candidates ≡ pairwise.counts.candidates },
    ghost by_wins: { number_for strengths.wins ≡ win_by (number_for pairwise.counts) },
}

// How many bytes the entry of the pair x, y takes.
#[tactic(auto, using(crate::proofs::Writing::entry_length))]
fn entry_length(strengths: &Strengths, x: usize, y: usize) -> usize
    ensures { result ≡ length (entry_by strengths.now x y) }
{
    NUMBER_SIZE + 1 + strengths.path(x, y).len() + SET_SIZE
}

// How many bytes the entries of all pairs take.
fn entries_length(strengths: &Strengths) -> usize
    ensures { result ≡ length (all_entries strengths.now) }
{
    let mut length = 0;
    for (x, y) in Pairs::of(strengths.wins.candidates) {
        length += entry_length(strengths, x, y);
    }
    length
}

impl Counted {
    pub fn of(pairwise: &Pairwise) -> Counted
        ensures { result.pairwise ≡ pairwise.now }
    {
        Counted {
            pairwise: *pairwise,
            strengths: Strengths::of(&pairwise.wins()),
        }
    }

    // How many bytes the certificate takes.
    pub fn sheet_length(&self) -> usize
        ensures { let g = self.now.pairwise.counts in
            result ≡ length (certificate_by g.candidates (number_for g)) }
    {
        let candidates = self.pairwise.counts.candidates;
        let entries = entries_length(&self.strengths);
        1 + candidates * candidates * NUMBER_SIZE + entries + SET_SIZE
    }
}
