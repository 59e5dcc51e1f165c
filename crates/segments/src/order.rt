// Orders: a segment list is asked for, from a source to a target.
use crate::units::Labels;
use netmap::Microseconds;

#[derive(Clone, Copy)]
pub struct Order {
    // its index in the sheet; 0 outside one, as a refusal tells a place in any case
    pub index: usize,
    pub source: u8,
    pub target: u8,
    // what the delay may be at most
    pub bound: Microseconds,
    // how many entries the list may have
    pub limit: Labels,
    // the length of a grain
    pub grain: Microseconds,
}
