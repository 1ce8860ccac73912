// The pairwise counts of a vote: for each pair of candidates, how many ballots put the first over
// the second.
#![tactic(auto)]

mod additions;
mod counter;
mod grid;
pub mod laws;
mod pairs;
mod pairwise;

pub use grid::{CELLS, Grid};
pub use pairs::Pairs;
pub use pairwise::Pairwise;
