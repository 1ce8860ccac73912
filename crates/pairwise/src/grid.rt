// A number for each pair of candidates.
ghost use Rattle.std.specs.Prelude.{◌≤◌};
ghost use Rattle.ballots.specs.Format.{most_candidates};

use ballots::{Lent, MOST_CANDIDATES, Refusal};

// How many pairs there are at the most, those of a candidate with itself among them.
pub const CELLS: usize = MOST_CANDIDATES * MOST_CANDIDATES;

// The number of the pair x, y stands at x × MOST_CANDIDATES + y, however many candidates there are.
#[derive(Clone, Copy)]
pub struct Grid {
    pub candidates: usize,
    pub cells: [u16; CELLS],
    ghost some: { 1 ≤ candidates },
    ghost few: { candidates ≤ most_candidates },
}

impl Grid {
    ghost use Rattle.std.specs.Prelude.{◌≡◌};
    ghost use Rattle.pairwise.specs.Grids.{number_for, table, Copied};

    // The number of the pair x, y; 0 where one of them is no candidate.
    pub fn at(&self, x: usize, y: usize) -> u16
        ensures { result ≡ number_for self.now x y }
    {
        if x < self.candidates && y < self.candidates {
            self.cells[x * MOST_CANDIDATES + y]
        } else {
            0
        }
    }

    // Copies the numbers row by row, without gaps, to the front of the slice that is lent.
    pub fn copy_to(&self, lent: Lent, out: &mut [u16]) -> Result<(), Refusal>
        ensures { Copied lent (table self.now) out.old out.new result }
    {
        let v = self.candidates;
        if out.len() < v * v {
            return Err(Refusal::Short(lent));
        }
        for x in 0..v {
            let to = x * v;
            let from = x * MOST_CANDIDATES;
            out[to..to + v].copy_from_slice(&self.cells[from..from + v]);
        }
        Ok(())
    }
}
