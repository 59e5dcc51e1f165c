// Segment lists for orders with a bound on delay, over any map and any tariff.
#![tactic(auto)]

mod cells;
mod checks;
mod choosing;
mod filling;
mod hops;
pub mod pareto;
pub mod quoting;
mod rebuilding;
pub mod running;
mod search;
mod table;
mod terms;
pub mod theorems;
pub mod workspace;

pub use keeper;
pub use keeper::{empty_slots, offer};
pub use pareto::front;
pub use quoting::quote;
pub use running::{Call, Reply, Step, run};
pub use workspace::Workspace;
