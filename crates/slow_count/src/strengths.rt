// The strengths of the strongest paths, found by trying every path.
ghost use Rattle.std.specs.Prelude.{◌≡◌};
ghost use Rattle.slow_count.specs.Tables.{NumbersOf};
ghost use Rattle.slow_count.specs.Strengths.{strongest, strength};

use crate::{MOST, Table};

// The strength of the strongest path from x to y that goes on over candidates that were not visited: every next
// candidate against whom there is a win is tried, and every path from there. As many candidates as are left can still be
// visited.
#[cycle(strongest)]
fn strongest(wins: &Table, x: usize, y: usize, visited: [bool; MOST], left: usize) -> u32
    ensures { result ≡ strongest wins.now y left visited x }
{
    if x == y {
        return u32::MAX;
    }
    let Some(left) = left.checked_sub(1) else {
        return 0;
    };
    let mut best = 0;
    for z in 0..MOST {
        let win = wins.at(x, z);
        if win > 0 && !visited[z] {
            let mut passed = visited;
            passed[z] = true;
            let rest = strongest(wins, z, y, passed, left);
            best = best.max(win.min(rest));
        }
    }
    best
}

// The strength of the strongest path from x to y, and 0 where there is none.
fn strength(wins: &Table, x: usize, y: usize) -> u32
    ensures { result ≡ strength wins.now x y }
{
    if x == y {
        return 0;
    }
    let mut visited = [false; MOST];
    if x < MOST {
        visited[x] = true;
    }
    strongest(wins, x, y, visited, MOST)
}

pub(crate) fn strengths_of(wins: &Table) -> Table
    ensures { NumbersOf (strength wins.now) result }
{
    Table::of(|x, y| strength(wins, x, y))
}
