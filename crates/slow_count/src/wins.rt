// The pairwise counts of a file, and the wins that they make.
ghost use Rattle.std.specs.Prelude.{◌≡◌};
ghost use Rattle.slow_count.specs.Tables.{NumbersOf, win};
ghost use Rattle.slow_count.specs.Files.{count};

use crate::{File, Table};

// How many ballots prefer each candidate to each other one.
pub(crate) fn counts_of(file: File<'_>) -> Table
    ensures { NumbersOf (count file.entry.bytes.now) result }
{
    Table::of(|x, y| file.preferring(x, y))
}

// The number of the ballots for x where more ballots are for x than against it, and 0 elsewhere.
fn win(counts: &Table, x: usize, y: usize) -> u32
    ensures { result ≡ win counts.now x y }
{
    let for_x = counts.at(x, y);
    if for_x > counts.at(y, x) { for_x } else { 0 }
}

pub(crate) fn wins_of(counts: &Table) -> Table
    ensures { NumbersOf (win counts.now) result }
{
    Table::of(|x, y| win(counts, x, y))
}
