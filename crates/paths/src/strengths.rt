// The strengths, with a path and a cut for each pair of candidates.
ghost use Rattle.std.specs.Prelude.{◌≡◌, ◌+◌, ◌<◌, ◌≤◌, ◌++◌, length};
ghost use Rattle.ballots.specs.Format.{most_candidates};
ghost use Rattle.ballots.specs.declared.refusal.Lent.TheVariants as lent;
ghost use Rattle.pairwise.specs.Grids.{number_for, rows, Copied};
ghost use Rattle.paths.specs.Paths.{below};
ghost use Rattle.paths.specs.Middles.{strength, path};
ghost use Rattle.paths.specs.Cuts.{nearer};
ghost use Rattle.paths.specs.Strengths.{StrengthOf, GridOf, PathOf, CutOf};
ghost use Rattle.paths.specs.inner.Fields.{HasStrengths, HasMiddles, last_below};

use crate::search;
use arrayvec::ArrayVec;
use ballots::{Bits, CandidateSet, Lent, MOST_CANDIDATES, Refusal};
use pairwise::{CELLS, Grid};

// The wins, which may be any numbers, the strength of each pair, and for each pair the candidates that bettered it as the
// one in the middle. All of it follows from the wins.
#[derive(Clone, Copy)]
pub struct Strengths {
    pub wins: Grid,
    strengths: Grid,
    middles: [CandidateSet; CELLS],
    ghost same: { strengths.candidates ≡ wins.candidates },
    ghost has_strengths: { HasStrengths (number_for wins) wins.candidates strengths.cells },
    ghost has_middles: { HasMiddles (number_for wins) wins.candidates middles },
}

// The last candidate below the limit that is in the set: the highest bit of those below.
fn last_below(set: CandidateSet, limit: usize) -> Option<usize>
    ensures { result ≡ last_below set limit }
{
    let lower = set.bits() & CandidateSet::all_below(limit).bits();
    if lower == 0 {
        None
    } else {
        Some((Bits::BITS - 1 - lower.leading_zeros()) as usize)
    }
}

impl Strengths {
    // The strengths by the wins: for each pair of candidates that of the strongest path, 0 for a candidate with itself.
    pub fn of(wins: &Grid) -> Strengths
        ensures { result.wins ≡ wins.now }
    {
        let candidates = wins.candidates;
        let mut cells = search::wins_of(wins);
        let mut middles = [CandidateSet::empty(); CELLS];
        // Once a middle has had its turn, every pair has the strength over all middles so far. In its turn nothing changes
        // to it or from it, so one grid does. With the middle further in, a pair is left before the parts of its path are found.
        for middle in 0..candidates {
            for x in 0..candidates {
                for y in 0..candidates {
                    search::better(&mut cells, &mut middles, middle, x, y);
                }
            }
        }
        search::clear_diagonal(&mut cells, candidates);
        Strengths {
            wins: *wins,
            strengths: Grid { candidates, cells },
            middles,
        }
    }

    // The strength of the strongest path from x to y; 0 where there is none, x is y, or there is no such pair.
    pub fn at(&self, x: usize, y: usize) -> u16
        ensures { StrengthOf (number_for self.now.wins) self.now.wins.candidates x y result }
    {
        self.strengths.at(x, y)
    }

    // The strengths of all pairs.
    pub fn grid(&self) -> &Grid
        ensures { GridOf (number_for self.now.wins) self.now.wins.candidates result.now }
    {
        &self.strengths
    }

    // Copies the strengths of all pairs to the front of the slice that is lent, in order of x, then y.
    pub fn copy_to(&self, out: &mut [u16]) -> Result<(), Refusal>
        ensures { let v = self.now.wins.candidates in
            Copied lent.Strengths (rows v (strength (number_for self.now.wins) v)) out.old out.new result }
    {
        self.strengths.copy_to(Lent::Strengths, out)
    }

    // Puts what follows x on the path to y over middles below the limit behind the path so far. The last middle that
    // bettered the pair parts it, and both parts have only earlier middles. Beside it they share nobody: over a shared
    // candidate the pair would have been as strong before.
    fn push_after(&self, limit: usize, x: usize, y: usize, row: &mut ArrayVec<u8, MOST_CANDIDATES>)
        requires inside { let v = self.now.wins.candidates in (x < v) × (y < v) × (limit ≤ v) }
        requires room { let w = number_for self.now.wins in
            let here = below self.now.wins.candidates in
            length row.old.items + length (path w here limit x y) ≤ most_candidates }
        ensures { let w = number_for self.now.wins in
            let here = below self.now.wins.candidates in
            row.new.items ≡ row.old.items ++ path w here limit x y }
    {
        match last_below(self.middles[x * MOST_CANDIDATES + y], limit) {
            None => row.push(y as u8),
            Some(middle) => {
                self.push_after(middle, x, middle, row);
                self.push_after(middle, middle, y, row);
            }
        }
    }

    // The strongest path from x to y, x first and y last: no candidate twice, each winning against the next. It is empty
    // where there is no path, x is y, or there is no such pair.
    pub fn path(&self, x: usize, y: usize) -> ArrayVec<u8, MOST_CANDIDATES>
        ensures { PathOf (number_for self.now.wins) self.now.wins.candidates x y result.items }
    {
        let mut path = ArrayVec::new();
        if self.at(x, y) > 0 {
            path.push(x as u8);
            self.push_after(self.wins.candidates, x, y, &mut path);
        }
        path
    }

    // Whether z is x, or x reaches z more strongly than y.
    fn is_nearer(&self, x: usize, y: usize, z: usize) -> bool
        ensures { result ≡ nearer (number_for self.now.wins) self.now.wins.candidates x y z }
    {
        z == x || self.at(x, z) > self.at(x, y)
    }

    // The cut of x and y: x, and whoever x reaches more strongly than y. Nobody in it wins against anybody outside with
    // more than the strength from x to y. It is empty where x is y or there is no such pair.
    pub fn cut(&self, x: usize, y: usize) -> CandidateSet
        ensures { CutOf (number_for self.now.wins) self.now.wins.candidates x y result }
    {
        let candidates = self.wins.candidates;
        let mut cut = CandidateSet::empty();
        if x >= candidates || y >= candidates || x == y {
            return cut;
        }
        for z in 0..candidates {
            if self.is_nearer(x, y, z) {
                cut.insert(z);
            }
        }
        cut
    }
}
