// The full order of the candidates.
ghost use Rattle.ballots.specs.Sets.{holds};
ghost use Rattle.pairwise.specs.Grids.{number_for};
ghost use Rattle.best.specs.Order.{OrderOf};
ghost use Rattle.best.specs.TieBreak.{before_by};
ghost use Rattle.best.specs.inner.NextPlace.{NextOf};

use crate::comparisons::unbeaten;
use crate::{Order, TieBreak};
use arrayvec::ArrayVec;
use ballots::CandidateSet;
use paths::Strengths;

// Of the candidates that are left and of whom no left one is ahead, the first in the tie-break order.
fn next(strengths: &Strengths, tie_break: &TieBreak, left: CandidateSet) -> Option<usize>
    ensures { let g = strengths.now.wins in
        NextOf (number_for g) g.candidates (before_by tie_break.now.keys) (holds left) result }
{
    let strengths = strengths.grid();
    (0..strengths.candidates)
        .filter(|x| left.contains(*x) && unbeaten(strengths, left, *x))
        .fold(None, |found, x| Some(tie_break.earlier(found, x)))
}

// The full order, made from the front: of the candidates that are left, among those of whom no other left one is
// ahead, the first in the tie-break order comes next.
pub fn full_order(strengths: &Strengths, tie_break: &TieBreak) -> Order
    ensures { let g = strengths.now.wins in
        OrderOf (number_for g) g.candidates (before_by tie_break.now.keys) result }
{
    let mut left = CandidateSet::all_below(strengths.wins.candidates);
    let mut row = ArrayVec::new();
    while let Some(x) = next(strengths, tie_break, left) {
        row.push(x);
        left.remove(x);
    }
    Order::of(&row)
}
