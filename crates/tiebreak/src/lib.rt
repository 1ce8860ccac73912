// The draw that decides between equals, and the whole count.
#![tactic(auto)]

mod counting;
mod draw;
pub mod laws;
mod outcome;
mod report;

pub use counting::count;
pub use outcome::Outcome;
pub use report::{LONGEST_REPORT, Report};
