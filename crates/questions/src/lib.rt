// The questions that calls ask, and the denial of the first that is answered no.
#![tactic(auto)]

pub mod denial;

pub use denial::{Denial, Layer, Question};
