// The words that the programs are called with, and what they ask for.
#![tactic(auto)]

mod call;
mod checks;
mod counts;
mod drawn;
mod grammar;
pub mod laws;
mod numbers;
mod parts;

pub use call::Call;
pub use checks::CheckRequest;
pub use counts::{CountRequest, DrawSource};
pub use drawn::Drawn;
pub use grammar::Grammar;
pub use numbers::number;
pub use parts::{Part, Parts};
