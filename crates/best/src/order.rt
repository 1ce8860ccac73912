// The candidates in an order.
ghost use Rattle.std.specs.Prelude.{◌≤◌};
ghost use Rattle.ballots.specs.Format.{most_candidates};

use arrayvec::ArrayVec;
use ballots::MOST_CANDIDATES;

// The candidates, first to last, and 0 behind them.
#[derive(Clone, Copy)]
pub struct Order {
    pub candidates: usize,
    pub places: [usize; MOST_CANDIDATES],
    ghost few: { candidates ≤ most_candidates },
}

impl Order {
    ghost use Rattle.std.specs.Prelude.{◌≡◌, length};
    ghost use Rattle.best.specs.Order.{row_of, IsZeroBehind};

    // The order in which the candidates of the row stand.
    pub(crate) fn of(row: &ArrayVec<usize, MOST_CANDIDATES>) -> Order
        ensures candidates { result.candidates ≡ length row.now.items }
        ensures row { row_of result ≡ row.now.items }
        ensures behind { IsZeroBehind result }
    {
        let candidates = row.len();
        let mut places = [0; MOST_CANDIDATES];
        places[..candidates].copy_from_slice(row.as_slice());
        Order { candidates, places }
    }

    // The candidates, first to last.
    pub fn as_slice(&self) -> &[usize]
        ensures { result.now ≡ row_of self.now }
    {
        &self.places[..self.candidates]
    }
}
