// Files of ballots for tests: the one place of the tests that knows what stands where in a file.
#![tactic(auto)]

mod votes;

pub use votes::Votes;
