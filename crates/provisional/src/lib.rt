// The provisional count: it keeps only the pairwise counts between ballots, and tells the best of those taken so far.
#![tactic(auto)]

ghost use Rattle.std.specs.Prelude.{◌≡◌, [], IfOk, IfErr, OnOk, OnErr, Some};
ghost use Rattle.ballots.specs.Loans.{result_of};
ghost use Rattle.pairwise.specs.Pairwise.{candidates_refusal, add_refusal};
ghost use Rattle.provisional.specs.Running.{ballots_taken, Taken, TakesBallot, BestOfCounts, BestOfTaken, AsCounted};

use ballots::{Ballot, CandidateSet, Refusal};
use best::best;
use pairwise::Pairwise;
use paths::Strengths;

#[derive(Clone, Copy)]
pub struct Provisional {
    pairwise: Pairwise,
}

impl Provisional {
    // A count of no ballots yet.
    pub fn new(candidates: usize) -> Result<Provisional, Refusal>
        ensures none { IfOk result (Taken candidates []) }
        ensures refused { IfErr result (λ e. candidates_refusal candidates ≡ Some e) }
    {
        Ok(Provisional {
            pairwise: Pairwise::empty(candidates)?,
        })
    }

    // Takes one ballot more, with a rank for each candidate; a refused one changes nothing.
    pub fn add(&mut self, ballot: Ballot<'_>) -> Result<(), Refusal>
        ensures answer { let refused = add_refusal self.old.pairwise ballot.entry.ranks.now in
            result ≡ result_of refused tt }
        ensures taken { OnOk result (TakesBallot self.old ballot.entry.ranks.now self.new) }
        ensures refused { OnErr result (self.new ≡ self.old) }
    {
        self.pairwise.add(ballot)
    }

    // How many ballots were taken.
    pub fn ballots(&self) -> u16
        ensures { result ≡ ballots_taken self.now }
    {
        self.pairwise.ballots
    }

    // The set of the best of the ballots that were taken.
    pub fn best(&self) -> CandidateSet
        ensures counts { BestOfCounts self.now result }
        ensures taken { BestOfTaken self.now result }
        ensures counted { AsCounted self.now result }
    {
        best(&Strengths::of(&self.pairwise.wins()))
    }
}
