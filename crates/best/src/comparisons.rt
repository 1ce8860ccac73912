// Who is ahead, and who is among the best.
ghost use Rattle.std.specs.Prelude.{◌≡◌, ◌↔◌, IsTrue};
ghost use Rattle.ballots.specs.Sets.{holds};
ghost use Rattle.pairwise.specs.Grids.{number_for};
ghost use Rattle.paths.specs.Paths.{below};
ghost use Rattle.best.specs.Best.{Ahead};
ghost use Rattle.best.specs.Comparisons.{ahead_by, unbeaten_by, best_by, BestSet};

use ballots::CandidateSet;
use pairwise::Grid;
use paths::Strengths;

// Whether x is ahead of y by these strengths: the strength from x to y is above the strength back.
fn ahead_by(strengths: &Grid, x: usize, y: usize) -> bool
    ensures { result ≡ ahead_by (number_for strengths.now) x y }
{
    strengths.at(y, x) < strengths.at(x, y)
}

// Whether x is ahead of y.
pub fn ahead(strengths: &Strengths, x: usize, y: usize) -> bool
    ensures { let g = strengths.now.wins in
        IsTrue result ↔ Ahead (number_for g) (below g.candidates) x y }
{
    ahead_by(strengths.grid(), x, y)
}

// Whether none of the candidates that are left is ahead of x.
pub(crate) fn unbeaten(strengths: &Grid, left: CandidateSet, x: usize) -> bool
    ensures { let g = strengths.now in
        result ≡ unbeaten_by (number_for g) g.candidates (holds left) x }
{
    (0..strengths.candidates).all(|y| !(left.contains(y) && ahead_by(strengths, y, x)))
}

// By any strengths, the set of the candidates of whom nobody is ahead.
pub fn best_by(strengths: &Grid) -> CandidateSet
    ensures { result ≡ best_by (number_for strengths.now) strengths.now.candidates }
{
    let everybody = CandidateSet::all_below(strengths.candidates);
    let mut best = CandidateSet::empty();
    for x in 0..strengths.candidates {
        if unbeaten(strengths, everybody, x) {
            best.insert(x);
        }
    }
    best
}

// The set of the best: the candidates of whom nobody is ahead.
pub fn best(strengths: &Strengths) -> CandidateSet
    ensures { let g = strengths.now.wins in BestSet (number_for g) g.candidates result }
{
    best_by(strengths.grid())
}
