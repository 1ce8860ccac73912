// The whole count, on slices that the caller lends.
ghost use Rattle.std.specs.Prelude.{IfOk};
ghost use Rattle.ballots.specs.Format.{candidates_in};
ghost use Rattle.pairwise.specs.Pairwise.{counts_of};
ghost use Rattle.best.specs.Answers.{CloneIndependent, IndependentByOne};
ghost use Rattle.certificate.specs.Certified.{Leaves};
ghost use Rattle.tiebreak.specs.Reports.{report_of, ReportOf};
ghost use Rattle.tiebreak.specs.Outcomes.{count_refusal, ComesTo, Trusted, best_part};

use crate::Outcome;
use crate::draw::Draw;
use ballots::{BallotFile, Refusal};
use best::full_order;
use certificate::{Counted, certify_strengths};
use pairwise::Pairwise;

// Counts the ballots, with the draw between equals. Writes the table, the strengths and the certificate to the fronts of
// the slices that are lent, or refuses before anything is written.
pub fn count(
    bytes: &[u8],
    draw: &[u8],
    table: &mut [u16],
    strengths: &mut [u16],
    sheet: &mut [u8],
) -> Result<Outcome, Refusal>
    ensures outcome { let refused = count_refusal bytes.now draw.now table.old strengths.old sheet.old in
        ComesTo bytes.now draw.now refused result }
    ensures slices { let v = candidates_in bytes.now in
        let refused = count_refusal bytes.now draw.now table.old strengths.old sheet.old in
        let n = counts_of bytes.now in
        Leaves refused v n table.old table.new strengths.old strengths.new sheet.old sheet.new }
    ensures report { IfOk result (λ o. ReportOf bytes.now draw.now (report_of o)) }
    ensures trusted { IfOk result (λ o. Trusted bytes.now sheet.new o) }
    ensures clones { CloneIndependent bytes.now (best_part result) }
    ensures one { IndependentByOne bytes.now (best_part result) }
{
    let file = BallotFile::read(bytes)?;
    let draw = Draw::read(file, draw)?;
    let counted = Counted::of(&Pairwise::of(file));
    let certified = certify_strengths(&counted, table, strengths, sheet)?;
    let order = full_order(&counted.strengths, &draw.tie_break());
    Ok(Outcome {
        ballots: certified.ballots,
        best: certified.best,
        strengths: *counted.strengths.grid(),
        order,
        length: certified.length,
    })
}
