// Candidates struck off every ballot, into a slice that the caller lends: nothing here allocates.
ghost use Rattle.std.specs.Prelude.{◌≡◌, ◌<◌, length, All};
ghost use Rattle.ballots.specs.Sets.{holds, members};
ghost use Rattle.ballots.specs.Strikes.{ranks_at, Strikes};

use crate::file::HEADER_LENGTH;
use crate::{Ballot, BallotFile, CandidateSet, Lent, MOST_CANDIDATES, Refusal};
use arrayvec::ArrayVec;

// The candidates that stay, in order.
fn staying(file: BallotFile<'_>, keep: CandidateSet) -> ArrayVec<usize, MOST_CANDIDATES>
    ensures { result.items ≡ members (holds keep) file.entry.candidates }
{
    let mut staying = ArrayVec::new();
    for x in 0..file.candidates {
        if keep.contains(x) {
            staying.push(x);
        }
    }
    staying
}

// Writes the ranks of the candidates that stay.
fn strike_ballot(ballot: Ballot<'_>, staying: &[usize], out: &mut [u8])
    requires inside { All (λ x. x < length ballot.ranks.now) staying.now }
    requires room { length out.old ≡ length staying.now }
    ensures { out.new ≡ ranks_at staying.now ballot.entry.ranks.now }
{
    for (place, x) in staying.iter().enumerate() {
        out[place] = ballot.ranks[*x];
    }
}

// Strikes the candidates that are not in `keep` off every ballot and numbers the others anew, in
// their order. Writes the file so made to the front of the slice that is lent, and answers its
// length.
pub fn strike(file: BallotFile<'_>, keep: CandidateSet, out: &mut [u8]) -> Result<usize, Refusal>
    ensures { Strikes file.entry.bytes.now (holds keep) out.old out.new result }
{
    let staying = staying(file, keep);
    let stay = staying.len();
    if stay == 0 {
        return Err(Refusal::Candidates);
    }
    let whole = HEADER_LENGTH + usize::from(file.ballots) * stay;
    if out.len() < whole {
        return Err(Refusal::Short(Lent::Ballots));
    }
    out[..HEADER_LENGTH].copy_from_slice(&[stay as u8, file.bytes[1], file.bytes[2]]);
    for (i, ballot) in file.iter().enumerate() {
        let start = HEADER_LENGTH + i * stay;
        strike_ballot(ballot, &staying, &mut out[start..start + stay]);
    }
    Ok(whole)
}
