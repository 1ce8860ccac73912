// The count of files of which the fronts are kept.
ghost use Rattle.std.specs.Prelude.{ℕ, List};
ghost use Rattle.count.specs.Fronts.{AreFronts, CountsWhole};

use ballots::{BallotFile, Refusal};
use program::Front;
use tiebreak::{Outcome, count};

// Counts as the whole files would be counted.
pub fn count_fronts(
    ballots: &[u8],
    draw: &Front,
    table: &mut [u16],
    strengths: &mut [u16],
    sheet: &mut [u8],
) -> Result<Outcome, Refusal>
    ensures { (bytes all : List ℕ) → AreFronts ballots.now draw.now bytes all →
        CountsWhole bytes all table.old table.new strengths.old strengths.new sheet.old sheet.new result }
{
    let odd = draw.length % 2 == 1;
    if odd {
        BallotFile::read(ballots)?;
        return Err(Refusal::Length {
            at: draw.length as usize,
        });
    }
    count(ballots, &draw.bytes, table, strengths, sheet)
}
