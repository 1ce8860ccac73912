// Strongest paths: the strength of each pair of candidates, a path that shows it, and a cut that bounds it.
#![tactic(auto)]

pub mod laws;
mod search;
mod strengths;

pub use strengths::Strengths;
