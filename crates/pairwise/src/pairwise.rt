// The pairwise counts of ballots, and what they say of two candidates.
ghost use Rattle.pairwise.specs.Grids.{Bounded};

use crate::additions::add_to_counts;
use crate::counter::Counter;
use crate::{CELLS, Grid};
use ballots::{Ballot, BallotFile, Lent, MOST_BALLOTS, MOST_CANDIDATES, Refusal};
use std::array;

// The number of ballots, and n(x, y) for each pair of candidates.
#[derive(Clone, Copy)]
pub struct Pairwise {
    pub ballots: u16,
    pub counts: Grid,
    ghost bounded: { Bounded ballots counts.cells },
}

impl Pairwise {
    ghost use Rattle.std.specs.Prelude.{◌≡◌, IfOk, IfErr, OnOk, OnErr, Some};
    ghost use Rattle.ballots.specs.declared.refusal.Lent.TheVariants as lent;
    ghost use Rattle.ballots.specs.Loans.{result_of};
    ghost use Rattle.pairwise.specs.Counts.{win_by};
    ghost use Rattle.pairwise.specs.Grids.{number_for, table, Copied, IsZeroOutside};
    ghost use Rattle.pairwise.specs.Pairwise.{win_in, PairwiseOf, Empty, candidates_refusal, OneMore, add_refusal};

    // The counts of the ballots of a file.
    pub fn of(file: BallotFile<'_>) -> Pairwise
        ensures { PairwiseOf file.entry.bytes.now result }
    {
        let mut counter = Counter::new();
        for ballot in file.iter() {
            counter.add(ballot);
        }
        let cells = counter.into_cells();
        Pairwise {
            ballots: file.ballots,
            counts: Grid {
                candidates: file.candidates,
                cells,
            },
        }
    }

    // The counts of no ballots.
    pub fn empty(candidates: usize) -> Result<Pairwise, Refusal>
        ensures counts { IfOk result (Empty candidates) }
        ensures refused { IfErr result (λ e. candidates_refusal candidates ≡ Some e) }
    {
        if !(1..=MOST_CANDIDATES).contains(&candidates) {
            return Err(Refusal::Candidates);
        }
        let cells = [0u16; CELLS];
        Ok(Pairwise {
            ballots: 0,
            counts: Grid { candidates, cells },
        })
    }

    // Counts one ballot more; a refused one changes nothing.
    pub fn add(&mut self, ballot: Ballot<'_>) -> Result<(), Refusal>
        ensures answer { result ≡ result_of (add_refusal self.old ballot.entry.ranks.now) tt }
        ensures counted { OnOk result (OneMore self.old ballot.entry.ranks.now self.new) }
        ensures refused { OnErr result (self.new ≡ self.old) }
    {
        if self.ballots == MOST_BALLOTS {
            return Err(Refusal::Length { at: 0 });
        }
        let ranks = ballot.ranks.len();
        let candidates = self.counts.candidates;
        if ranks != candidates {
            return Err(Refusal::Length {
                at: ranks.min(candidates),
            });
        }
        add_to_counts(&mut self.counts.cells, ballot);
        self.ballots += 1;
        Ok(())
    }

    // n(x, y): how many ballots put x over y.
    pub fn preferring(&self, x: usize, y: usize) -> u16
        ensures { result ≡ number_for self.now.counts x y }
    {
        self.counts.at(x, y)
    }

    // The strength of the win of x against y: the ballots for it, 0 where x does not win.
    pub fn win(&self, x: usize, y: usize) -> u16
        ensures { result ≡ win_in self.now x y }
    {
        let for_x = self.preferring(x, y);
        let for_y = self.preferring(y, x);
        if for_y < for_x { for_x } else { 0 }
    }

    // The wins of all pairs, and 0 in every other cell.
    pub fn wins(&self) -> Grid
        ensures candidates { result.candidates ≡ self.now.counts.candidates }
        ensures pairs { number_for result ≡ win_by (number_for self.now.counts) }
        ensures outside { IsZeroOutside result }
    {
        Grid {
            candidates: self.counts.candidates,
            cells: array::from_fn(|at| self.win(at / MOST_CANDIDATES, at % MOST_CANDIDATES)),
        }
    }

    // Copies n(x, y) of all pairs to the front of the table that is lent, in order of x, then y.
    pub fn copy_to(&self, out: &mut [u16]) -> Result<(), Refusal>
        ensures { Copied lent.Table (table self.now.counts) out.old out.new result }
    {
        self.counts.copy_to(Lent::Table, out)
    }
}
