// Segment lists by plain enumeration, written apart from the engine so that the two can be held against each other.
#![tactic(auto)]

pub mod answers;
mod growth;
pub mod lists;
pub mod routes;

pub use answers::{Pair, best_list, on_front, pairs_within, walked};
pub use lists::{Ask, List, Outcome, packed};
pub use routes::{Net, Route, Rule};
