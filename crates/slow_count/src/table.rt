// Numbers of pairs of candidates.
ghost use Rattle.std.specs.Prelude.{◌≡◌, ℕ, ◌/◌, ◌%◌, ◌<◌, slice_index};

// The greatest number of candidates that the slow count takes.
pub const MOST: usize = 6;

// How many pairs there are. The pair x, y has place x × MOST + y.
pub const CELLS: usize = MOST * MOST;

// A number for each pair.
#[derive(Clone, Copy)]
pub struct Table {
    pub cells: [u32; CELLS],
}

impl Table {
    ghost use Rattle.slow_count.specs.Tables.{cell};

    // The table of the numbers that the closure gives.
    pub(crate) fn of<F: Fn(usize, usize) -> u32>(number: F) -> Table
        requires { F.IsAlwaysCallable number }
        ensures { (k : ℕ) → k < CELLS → F.post number (k / MOST) (k % MOST) (slice_index result.cells k) }
    {
        let mut cells = [0; CELLS];
        for cell in 0..CELLS {
            cells[cell] = number(cell / MOST, cell % MOST);
        }
        Table { cells }
    }

    // The number of x and y, and 0 where there is no such pair.
    pub fn at(&self, x: usize, y: usize) -> u32
        ensures { result ≡ cell self.now x y }
    {
        if x < MOST && y < MOST {
            self.cells[x * MOST + y]
        } else {
            0
        }
    }
}
