// A slow count of small files for tests, which tries every path that there is. It takes the ballots from the bytes by
// itself, and shares no code with the count that it is compared with.
#![tactic(auto)]

mod count;
mod draw;
mod file;
mod set;
mod strengths;
mod table;
mod tie;
mod wins;

pub use count::{SlowCount, passes_twice};
pub use draw::Draw;
pub use file::File;
pub use table::{CELLS, MOST, Table};
pub use tie::Tie;
