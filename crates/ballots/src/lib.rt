// The ballots of a vote, as bytes: a header, and one ballot after the other. Candidates struck off
// all of them, sets of candidates, and why bytes are refused.
#![tactic(auto)]

mod ballot;
mod candidate_set;
mod file;
pub mod laws;
mod members;
mod refusal;
mod striking;

pub use ballot::Ballot;
pub use candidate_set::{Bits, CandidateSet, ROOM};
pub use file::{BallotFile, Ballots, MOST_BALLOTS, MOST_CANDIDATES};
pub use members::Members;
pub use refusal::{Lent, Refusal, RefusalText};
pub use striking::strike;
