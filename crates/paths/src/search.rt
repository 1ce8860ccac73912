// The steps of the search for the strengths.
ghost use Rattle.std.specs.Prelude.{◌<◌, ◌≤◌};
ghost use Rattle.ballots.specs.Format.{most_candidates};
ghost use Rattle.pairwise.specs.Grids.{number_for};
ghost use Rattle.paths.specs.inner.Phases.{HasWins, Tried, Cleared};

use ballots::{CandidateSet, MOST_CANDIDATES};
use pairwise::{CELLS, Grid};
use std::array;

// The wins, as strengths of paths with nobody in the middle, and 0 in every other cell.
pub fn wins_of(wins: &Grid) -> [u16; CELLS]
    ensures { HasWins (number_for wins.now) result }
{
    array::from_fn(|at| wins.at(at / MOST_CANDIDATES, at % MOST_CANDIDATES))
}

// Tries a candidate as the middle of the path from x to y.
pub fn better(
    cells: &mut [u16; CELLS],
    middles: &mut [CandidateSet; CELLS],
    middle: usize,
    x: usize,
    y: usize,
)
    requires { (middle < most_candidates) × (x < most_candidates) × (y < most_candidates) }
    ensures { Tried middle x y cells.old middles.old cells.new middles.new }
{
    let to = cells[x * MOST_CANDIDATES + middle];
    let from = cells[middle * MOST_CANDIDATES + y];
    let over = to.min(from);
    let at = x * MOST_CANDIDATES + y;
    if cells[at] < over {
        cells[at] = over;
        middles[at].insert(middle);
    }
}

// No path leads from a candidate to itself: the circles that were found are taken out.
pub fn clear_diagonal(cells: &mut [u16; CELLS], candidates: usize)
    requires { candidates ≤ most_candidates }
    ensures { Cleared candidates cells.old cells.new }
{
    for x in 0..candidates {
        cells[x * MOST_CANDIDATES + x] = 0;
    }
}
