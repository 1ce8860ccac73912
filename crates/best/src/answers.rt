// Counting a file, and counting it once more with candidates struck.
ghost use Rattle.std.specs.Prelude.{◌≡◌};
ghost use Rattle.ballots.specs.Loans.{slice_after};
ghost use Rattle.ballots.specs.Sets.{holds};
ghost use Rattle.ballots.specs.Strikes.{struck_file};
ghost use Rattle.best.specs.Answers.{BestOf, AnswerOf, both_refusal, AnswersOf, CloneIndependent, IndependentByOne};

use crate::best;
use ballots::{BallotFile, CandidateSet, Refusal, strike};
use pairwise::Pairwise;
use paths::Strengths;

// The set of the best of a file, and that of the file with candidates struck, who have other numbers there.
#[derive(Clone, Copy)]
pub struct Both {
    pub all: CandidateSet,
    pub kept: CandidateSet,
}

// The set of the best of a file.
fn best_of_file(file: BallotFile<'_>) -> CandidateSet
    ensures { BestOf file.entry.bytes.now result }
{
    let pairwise = Pairwise::of(file);
    best(&Strengths::of(&pairwise.wins()))
}

// The set of the best, or why the bytes are refused.
pub fn best_of(bytes: &[u8]) -> Result<CandidateSet, Refusal>
    ensures answer { AnswerOf bytes.now result }
    ensures clones { CloneIndependent bytes.now result }
    ensures one { IndependentByOne bytes.now result }
{
    let file = BallotFile::read(bytes)?;
    Ok(best_of_file(file))
}

// Strikes the candidates that are not in `keep`, writes the struck file to the front of the slice that is lent, and
// counts both files.
pub fn best_of_both(bytes: &[u8], keep: CandidateSet, out: &mut [u8]) -> Result<Both, Refusal>
    ensures answers { AnswersOf bytes.now (holds keep) out.old result }
    ensures after { let refused = both_refusal bytes.now (holds keep) out.old in
        out.new ≡ slice_after refused out.old (struck_file (holds keep) bytes.now) }
{
    let file = BallotFile::read(bytes)?;
    let length = strike(file, keep, out)?;
    let all = best_of_file(file);
    let kept = best_of(&out[..length])?;
    Ok(Both { all, kept })
}
