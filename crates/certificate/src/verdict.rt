// Checking a certificate against the ballots.
ghost use Rattle.std.specs.Prelude.{◌≡◌, ◌↔◌, ℕ, Ok, Err, IfOk};
ghost use Rattle.ballots.specs.declared.refusal.Refusal.TheVariants.{Path, Cut};
ghost use Rattle.ballots.specs.Loans.{result_of};
ghost use Rattle.pairwise.specs.Grids.{number_for};
ghost use Rattle.pairwise.specs.Pairwise.{win_in};
ghost use Rattle.paths.specs.Middles.{strength};
ghost use Rattle.paths.specs.Paths.{IsPair};
ghost use Rattle.paths.specs.Strengths.{GridOf};
ghost use Rattle.certificate.specs.Judge.{end_refusal, sheet_refusal, judge};
ghost use Rattle.certificate.specs.Truth.{TrueTo, AsSaid};
ghost use Rattle.certificate.specs.Refused.{RefusedAtPath, RefusedAtCut};
ghost use Rattle.certificate.specs.inner.Parts.{table_of};
ghost use Rattle.certificate.specs.inner.Progress.{Passes, ReadsEntry, ReadsEntries};

use crate::Number;
use crate::claims::{is_cut, is_path};
use crate::reader::Reader;
use ballots::{BallotFile, CandidateSet, MOST_CANDIDATES, Refusal};
use best::best_by;
use pairwise::{CELLS, Grid, Pairs, Pairwise};

// Reads the number of candidates and the table, which have to be those of the counts.
#[tactic(auto, using(crate::proofs::Tables::table_steps), unfolding(crate::specs::Layout::table_bytes))]
fn check_table(pairwise: &Pairwise, reader: &mut Reader) -> Result<(), Refusal>
    ensures { Passes (table_of pairwise.now) reader.old reader.new result }
{
    let candidates = pairwise.counts.candidates;
    reader.pass(&[candidates as u8])?;
    for i in 0..candidates * candidates {
        let number = pairwise.preferring(i / candidates, i % candidates);
        reader.pass(&number.to_le_bytes())?;
    }
    Ok(())
}

// Reads the entry of the pair x, y, and answers the strength in it.
#[tactic(auto, using(std::proofs::lemmas::Bool::Decides::nat_tests), unfolding(crate::specs::Judge::entry_refusal))]
fn check_entry(
    pairwise: &Pairwise,
    reader: &mut Reader,
    x: usize,
    y: usize,
) -> Result<Number, Refusal>
    requires { IsPair pairwise.now.counts.candidates x y }
    ensures reads { ReadsEntry pairwise.now x y reader.old reader.new result }
    ensures strength { let t = pairwise.now in
        IfOk result (λ s. s ≡ strength (win_in t) t.counts.candidates x y) }
{
    let strength = reader.number()?;
    let count = reader.byte()?;
    let path = reader.take(usize::from(count))?;
    if !is_path(pairwise, path, x, y, strength) {
        return Err(Refusal::Path {
            from: x as u8,
            to: y as u8,
        });
    }
    let cut = reader.set()?;
    if !is_cut(pairwise, cut, x, y, strength) {
        return Err(Refusal::Cut {
            from: x as u8,
            to: y as u8,
        });
    }
    Ok(strength)
}

// Reads the entries of all pairs, and answers the strengths in them.
fn check_entries(pairwise: &Pairwise, reader: &mut Reader) -> Result<Grid, Refusal>
    ensures reads { ReadsEntries pairwise.now reader.old reader.new result }
    ensures strengths { IfOk result (GridOf (win_in pairwise.now) pairwise.now.counts.candidates) }
{
    let candidates = pairwise.counts.candidates;
    let mut cells = [0; CELLS];
    for (x, y) in Pairs::of(candidates) {
        cells[x * MOST_CANDIDATES + y] = check_entry(pairwise, reader, x, y)?;
    }
    Ok(Grid { candidates, cells })
}

// Reads the set of the best, which has to be this one, with nothing behind it.
fn check_end(best: CandidateSet, reader: &mut Reader) -> Result<(), Refusal>
    ensures { result ≡ result_of (end_refusal best reader.old.sheet.now reader.old.at) tt }
{
    if reader.set()? != best {
        return Err(Refusal::Best);
    }
    reader.finish()
}

// Whether a certificate is right for pairwise counts, or the first refusal in it, front to back.
#[tactic(auto, using(crate::proofs::Tables::table_steps), unfolding(crate::specs::Judge::sheet_refusal))]
fn check_against(pairwise: &Pairwise, sheet: &[u8]) -> Result<(), Refusal>
    ensures { let g = pairwise.now.counts in
        result ≡ result_of (sheet_refusal g.candidates (number_for g) sheet.now) tt }
{
    let mut reader = Reader::new(sheet);
    check_table(pairwise, &mut reader)?;
    let strengths = check_entries(pairwise, &mut reader)?;
    check_end(best_by(&strengths), &mut reader)
}

// Accepts the certificate of the ballots that the bytes hold, or answers the first refusal: of the ballots, then of
// the certificate, front to back. What is accepted has the true strengths and the true best, and is accepted with any
// paths and cuts that are as said. What is refused at the path or at the cut of a pair is as said up to there.
pub fn check(bytes: &[u8], sheet: &[u8]) -> Result<(), Refusal>
    ensures verdict { result ≡ result_of (judge bytes.now sheet.now) tt }
    ensures truth { result ≡ Ok tt → TrueTo bytes.now sheet.now }
    ensures exact { (result ≡ Ok tt) ↔ AsSaid bytes.now sheet.now }
    ensures path { (x y : ℕ) → (result ≡ Err (Path x y)) ↔ RefusedAtPath bytes.now sheet.now x y }
    ensures cut { (x y : ℕ) → (result ≡ Err (Cut x y)) ↔ RefusedAtCut bytes.now sheet.now x y }
{
    let pairwise = Pairwise::of(BallotFile::read(bytes)?);
    check_against(&pairwise, sheet)
}
