// Who is ahead, who is among the best, the full order, and the laws of the method.
#![tactic(auto)]

mod answers;
mod comparisons;
pub mod laws;
mod order;
mod ordering;
mod tie_break;

pub use answers::{Both, best_of, best_of_both};
pub use comparisons::{ahead, best, best_by};
pub use order::Order;
pub use ordering::full_order;
pub use tie_break::TieBreak;
