// Segment routing over any map and any tariff: best paths, node and adjacency segments, and segment lists.
#![tactic(auto)]

mod distances;
mod ecmp;
pub mod entry;
pub mod figures;
mod near;
pub mod order;
pub mod routing;
pub mod theorems;
pub mod units;
pub mod walking;

pub use figures::{Figures, Leg, Spread, Walk};
pub use order::Order;
pub use routing::{Routes, route};
pub use units::{Grain, Grains, Labels};
pub use walking::walk;
