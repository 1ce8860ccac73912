// The certificate of a count: by one path and one cut for each pair it lets anybody see that the strengths and the
// best are right.
#![tactic(auto)]

use ballots::{MOST_CANDIDATES, ROOM};
use pairwise::CELLS;

mod certification;
mod claims;
mod counted;
pub mod laws;
mod reader;
mod verdict;
mod writer;

pub use certification::{Certified, certify, certify_strengths};
pub use counted::Counted;
pub use verdict::check;

// A number in a certificate: a count, or a strength.
pub type Number = u16;

// How many bytes a number takes, and how many a set of candidates.
pub(crate) const NUMBER_SIZE: usize = Number::BITS as usize / 8;

pub(crate) const SET_SIZE: usize = ROOM / 8;

// How many bytes have room for every certificate: that of most candidates, with all of them on the path of each pair.
pub const LONGEST: usize = 1
    + CELLS * NUMBER_SIZE
    + MOST_CANDIDATES * (MOST_CANDIDATES - 1) * (NUMBER_SIZE + 1 + MOST_CANDIDATES + SET_SIZE)
    + SET_SIZE;
