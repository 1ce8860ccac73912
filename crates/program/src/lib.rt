// What the programs share: why one ends, what it says then, and files of which the front is kept.
#![tactic(auto)]

mod ending;
mod fault;
mod front;
mod phrase;
mod program;
mod reason;
mod said;

pub use ending::Ending;
pub use fault::Fault;
pub use front::{Front, read_ballots, read_draw, read_sheet};
pub use phrase::Phrase;
pub use program::{Program, VERSION};
pub use reason::Reason;
pub use said::{Said, Text};
