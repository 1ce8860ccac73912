// The slow count of a file.
ghost use Rattle.std.specs.Prelude.{◌≡◌, ◌-◌, ◌<◌, length};
ghost use Rattle.slow_count.specs.Rows.{passes_twice};

use crate::set::{ROOM, has};
use crate::strengths::strengths_of;
use crate::wins::{counts_of, wins_of};
use crate::{File, MOST, Table, Tie};
use arrayvec::ArrayVec;

// A file, its pairwise counts, wins and strengths.
#[derive(Clone, Copy)]
pub struct SlowCount<'a> {
    pub file: File<'a>,
    pub counts: Table,
    pub wins: Table,
    pub strengths: Table,
}

impl<'a> SlowCount<'a> {
    ghost use Rattle.slow_count.specs.Counts.{SlowCountOf};

    pub fn of(bytes: &'a [u8]) -> SlowCount<'a>
        ensures { SlowCountOf bytes.entry.now result }
    {
        let file = File { bytes };
        let counts = counts_of(file);
        let wins = wins_of(&counts);
        let strengths = strengths_of(&wins);
        SlowCount {
            file,
            counts,
            wins,
            strengths,
        }
    }
}

impl SlowCount<'_> {
    ghost use Rattle.slow_count.specs.Counts.{candidate, goes_over_others, ahead, everybody, unbeaten};
    ghost use Rattle.slow_count.specs.Counts.{among_best, is_best_set};
    ghost use Rattle.slow_count.specs.Orders.{comes_later, comes_next, next, order_of};
    ghost use Rattle.slow_count.specs.Rows.{weakest, is_path};
    ghost use Rattle.slow_count.specs.Cuts.{bounded, bounds, is_cut};

    fn is_candidate(&self, x: usize) -> bool
        ensures { result ≡ candidate self.now x }
    {
        x < usize::from(self.file.candidates())
    }

    // Whether some strongest path goes over others though there is no win, or a weaker one.
    pub fn goes_over_others(&self) -> bool
        ensures { result ≡ goes_over_others self.now }
    {
        let wins = self.wins.cells.iter();
        wins.zip(self.strengths.cells.iter())
            .any(|(win, strength)| win < strength)
    }

    fn ahead(&self, x: usize, y: usize) -> bool
        ensures { result ≡ ahead self.now x y }
    {
        self.strengths.at(x, y) > self.strengths.at(y, x)
    }

    // Whether none of those that are left is ahead of x.
    #[tactic(auto, unfolding(crate::specs::Counts::unbeaten))]
    fn unbeaten(&self, left: [bool; MOST], x: usize) -> bool
        ensures { result ≡ unbeaten self.now left x }
    {
        (0..MOST).all(|y| !(left[y] && self.ahead(y, x)))
    }

    #[tactic(auto, unfolding(crate::specs::Counts::everybody))]
    fn everybody(&self) -> [bool; MOST]
        ensures { result ≡ everybody self.now }
    {
        std::array::from_fn(|x| self.is_candidate(x))
    }

    fn is_best(&self, x: usize) -> bool
        ensures { result ≡ among_best self.now x }
    {
        self.is_candidate(x) && self.unbeaten(self.everybody(), x)
    }

    // Whether the set is that of the best.
    #[tactic(auto, unfolding(crate::specs::Counts::is_best_set))]
    pub fn is_best_set(&self, set: u64) -> bool
        ensures { result ≡ is_best_set self.now set }
    {
        (0..ROOM).all(|x| {
            if self.is_best(x) {
                has(set, x)
            } else {
                !has(set, x)
            }
        })
    }

    // Whether some unbeaten other one of those that are left is before x.
    #[tactic(auto, unfolding(crate::specs::Orders::comes_later))]
    fn comes_later(&self, tie: Tie<'_>, left: [bool; MOST], x: usize) -> bool
        ensures { result ≡ comes_later self.now tie.entry left x }
    {
        (0..MOST).any(|z| {
            z != x && left[z] && self.unbeaten(left, z) && tie.before(self.file, z, x)
        })
    }

    // Whether x comes next in the full order: of those that are left, it is unbeaten, and before every other one
    // that is.
    fn comes_next(&self, tie: Tie<'_>, left: [bool; MOST], x: usize) -> bool
        requires { x < MOST }
        ensures { result ≡ comes_next self.now tie.entry left x }
    {
        left[x] && self.unbeaten(left, x) && !self.comes_later(tie, left, x)
    }

    #[tactic(auto, unfolding(crate::specs::Orders::next))]
    fn next(&self, tie: Tie<'_>, left: [bool; MOST]) -> Option<usize>
        ensures { result ≡ next self.now tie.entry left }
    {
        (0..MOST).find(|x| self.comes_next(tie, left, *x))
    }

    // The full order.
    pub fn order(&self, tie: Tie<'_>) -> ArrayVec<usize, MOST>
        ensures { result.items ≡ order_of self.now tie.entry (everybody self.now) MOST }
    {
        let mut left = self.everybody();
        let mut order = ArrayVec::new();
        for _place in 0..MOST {
            if let Some(x) = self.next(tie, left) {
                order.push(x);
                left[x] = false;
            }
        }
        order
    }

    // The weakest win from each of a row to the next one; above every win in a row of one.
    fn weakest(&self, row: &[u8]) -> u32
        ensures { result ≡ weakest self.now row.now (length row.now - 1) }
    {
        let mut weakest = u32::MAX;
        for step in 0..row.len().saturating_sub(1) {
            let win = self
                .wins
                .at(usize::from(row[step]), usize::from(row[step + 1]));
            weakest = weakest.min(win);
        }
        weakest
    }

    // Whether the row is a path from x to y whose weakest win is the strength; a row of nobody, where there is none.
    pub fn is_path(&self, x: usize, y: usize, row: &[u8]) -> bool
        ensures { result ≡ is_path self.now x y row.now }
    {
        let strength = self.strengths.at(x, y);
        match row {
            [] => strength == 0,
            [first, .., last] => {
                usize::from(*first) == x
                    && usize::from(*last) == y
                    && strength > 0
                    && self.weakest(row) == strength
            }
            _ => false,
        }
    }

    // Whether no win from z to anybody outside the set is above the strength.
    #[tactic(auto, unfolding(crate::specs::Cuts::bounded))]
    fn is_bounded(&self, set: u64, strength: u32, z: usize) -> bool
        ensures { result ≡ bounded self.now set strength z }
    {
        (0..MOST).all(|outside| has(set, outside) || self.wins.at(z, outside) <= strength)
    }

    // Whether the set has only candidates, and no win out of it is above the strength.
    #[tactic(auto, unfolding(crate::specs::Cuts::bounds))]
    fn bounds(&self, set: u64, strength: u32) -> bool
        ensures { result ≡ bounds self.now set strength }
    {
        (0..ROOM).all(|z| {
            !has(set, z) || (self.is_candidate(z) && self.is_bounded(set, strength, z))
        })
    }

    // Whether the set has x and not y, only candidates, and no win across above the strength.
    pub fn is_cut(&self, x: usize, y: usize, set: u64) -> bool
        ensures { result ≡ is_cut self.now x y set }
    {
        has(set, x) && !has(set, y) && self.bounds(set, self.strengths.at(x, y))
    }
}

// Whether some candidate stands in the row twice.
pub fn passes_twice(row: &[u8]) -> bool
    ensures { result ≡ passes_twice row.now }
{
    row.iter().enumerate().any(|(at, z)| row[..at].contains(z))
}
