// The memory that the search works in.
use segments::Spread;

// The working slices, which the caller lends; what they hold does not matter.
// For n nodes, a label limit of k and at most B grains within the bound, a search needs n × n, n × n and (k + 1) × (B + 1) × n slots.
#[derive(Drop)]
pub struct Workspace<'a, V> {
    pub dist: &'a mut [Option<u32>],
    pub spread: &'a mut [Option<Spread<V>>],
    pub table: &'a mut [Option<V>],
}
