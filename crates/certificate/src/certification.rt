// Certifying a count, in slices that the caller lends: nothing here allocates.
ghost use Rattle.std.specs.Prelude.{◌≡◌, ◌≤◌, take, IfOk, None};
ghost use Rattle.ballots.specs.Format.{most_candidates, candidates_in, ballots_in};
ghost use Rattle.ballots.specs.Loans.{result_of};
ghost use Rattle.pairwise.specs.Counts.{win_by};
ghost use Rattle.pairwise.specs.Grids.{number_for};
ghost use Rattle.pairwise.specs.Pairwise.{counts_of};
ghost use Rattle.best.specs.Comparisons.{BestSet};
ghost use Rattle.certificate.specs.Layout.{longest};
ghost use Rattle.certificate.specs.Judge.{judge};
ghost use Rattle.certificate.specs.Certified.{room_refusal, certify_refusal, certified_by, Leaves};

use crate::writer::write_certificate;
use crate::{Counted, NUMBER_SIZE, Number, SET_SIZE};
use ballots::{BallotFile, CandidateSet, Lent, Refusal};
use best::best;
use pairwise::Pairwise;

// What is answered of ballots that were certified: their number, the set of the best, and the certificate's length.
#[derive(Clone, Copy)]
pub struct Certified {
    pub ballots: u16,
    pub best: CandidateSet,
    pub length: usize,
}

// How long a certificate of so many candidates would be with all of them on the path of each pair.
fn longest(candidates: usize) -> usize
    requires { candidates ≤ most_candidates }
    ensures { result ≡ longest candidates }
{
    let pairs = candidates * candidates.saturating_sub(1);
    let entry = NUMBER_SIZE + 1 + candidates + SET_SIZE;
    1 + candidates * candidates * NUMBER_SIZE + pairs * entry + SET_SIZE
}

// Whether the slices have room for the table, the strengths and the certificate.
fn check_room(
    counted: &Counted,
    table: &[Number],
    strengths: &[Number],
    sheet: &[u8],
) -> Result<(), Refusal>
    ensures { let g = counted.now.pairwise.counts in
        let refused = room_refusal g.candidates (number_for g) table.now strengths.now sheet.now in
        result ≡ result_of refused tt }
{
    let candidates = counted.pairwise.counts.candidates;
    let numbers = candidates * candidates;
    if table.len() < numbers {
        return Err(Refusal::Short(Lent::Table));
    }
    if strengths.len() < numbers {
        return Err(Refusal::Short(Lent::Strengths));
    }
    if sheet.len() < longest(candidates) && sheet.len() < counted.sheet_length() {
        return Err(Refusal::Short(Lent::Sheet));
    }
    Ok(())
}

// Writes the table, the strengths and their certificate to the fronts of the slices that are lent, or refuses before
// anything is written.
pub fn certify_strengths(
    counted: &Counted,
    table: &mut [Number],
    strengths: &mut [Number],
    sheet: &mut [u8],
) -> Result<Certified, Refusal>
    ensures answer { let t = counted.now.pairwise in
        let v = t.counts.candidates in
        let n = number_for t.counts in
        let refused = room_refusal v n table.old strengths.old sheet.old in
        result ≡ result_of refused (certified_by t.ballots v n) }
    ensures slices { let t = counted.now.pairwise in
        let v = t.counts.candidates in
        let n = number_for t.counts in
        let refused = room_refusal v n table.old strengths.old sheet.old in
        Leaves refused v n table.old table.new strengths.old strengths.new sheet.old sheet.new }
    ensures best { let g = counted.now.pairwise.counts in
        IfOk result (λ c. BestSet (win_by (number_for g)) g.candidates c.best) }
{
    check_room(counted, table, strengths, sheet)?;
    counted.pairwise.copy_to(table)?;
    counted.strengths.copy_to(strengths)?;
    let best = best(&counted.strengths);
    let length = write_certificate(counted, best, sheet);
    Ok(Certified {
        ballots: counted.pairwise.ballots,
        best,
        length,
    })
}

// The same of the ballots that the bytes hold. The certificate is one that `check` accepts.
pub fn certify(
    bytes: &[u8],
    table: &mut [Number],
    strengths: &mut [Number],
    sheet: &mut [u8],
) -> Result<Certified, Refusal>
    ensures answer { let bs = bytes.now in
        let refused = certify_refusal bs table.old strengths.old sheet.old in
        let certified = certified_by (ballots_in bs) (candidates_in bs) (counts_of bs) in
        result ≡ result_of refused certified }
    ensures slices { let bs = bytes.now in
        let refused = certify_refusal bs table.old strengths.old sheet.old in
        Leaves refused (candidates_in bs) (counts_of bs)
        table.old table.new strengths.old strengths.new sheet.old sheet.new }
    ensures best { let bs = bytes.now in
        IfOk result (λ c. BestSet (win_by (counts_of bs)) (candidates_in bs) c.best) }
    ensures accepted { IfOk result (λ c. judge bytes.now (take c.length sheet.new) ≡ None) }
{
    let pairwise = Pairwise::of(BallotFile::read(bytes)?);
    certify_strengths(&Counted::of(&pairwise), table, strengths, sheet)
}
