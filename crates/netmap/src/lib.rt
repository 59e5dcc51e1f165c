// Maps of a carrier's network: nodes, places, and at each place nothing or one link.
#![tactic(auto)]

mod checks;
mod fields;
pub mod image;
pub mod link;
pub mod listing;
pub mod map;
mod sizes;
pub mod storage;
pub mod table;

pub use image::Image;
pub use link::{Link, Microseconds};
pub use map::{Map, held};
pub use questions::{Denial, Layer, Question, denial};
pub use storage::store;
pub use table::RecordTable;
