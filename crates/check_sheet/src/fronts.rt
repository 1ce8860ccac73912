// The check of files of which the fronts are kept.
ghost use Rattle.check_sheet.specs.Fronts.{VerdictOnWhole};

use ballots::Refusal;
use certificate::check;

// Checks what is kept of the ballots and of a sheet, as the whole files would be checked.
pub fn check_fronts(ballots: &[u8], sheet: &[u8]) -> Result<(), Refusal>
    ensures { VerdictOnWhole ballots.now sheet.now result }
{
    check(ballots, sheet)
}
