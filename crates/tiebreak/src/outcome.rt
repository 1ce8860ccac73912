// What a count comes to.
use crate::Report;
use crate::report::{push_ahead, push_best, push_order};
use arrayvec::ArrayString;
use ballots::CandidateSet;
use best::Order;
use pairwise::{Grid, Pairs};

// The number of ballots, the set of the best, the strength of each pair, the full order, and the length of the certificate.
#[derive(Clone, Copy)]
pub struct Outcome {
    pub ballots: u16,
    pub best: CandidateSet,
    pub strengths: Grid,
    pub order: Order,
    pub length: usize,
}

impl Outcome {
    ghost use Rattle.std.specs.Prelude.{◌≡◌};
    ghost use Rattle.tiebreak.specs.Reports.{report_of};

    // The text of the outcome: a line for the best, one for each pair of whom the first is ahead, and one for the order.
    #[tactic(auto, using(std::proofs::lemmas::Grind::common_steps))]
    pub fn report(&self) -> Report
        ensures { result.bytes ≡ report_of self.now }
    {
        let mut text = ArrayString::new();
        push_best(&mut text, self.ballots, self.best);
        for (x, y) in Pairs::of(self.strengths.candidates) {
            push_ahead(&mut text, &self.strengths, x, y);
        }
        push_order(&mut text, self.order.as_slice());
        text
    }
}
