// Random networks, orders and lists: small figures, so that ties are common, and delays at the edges of grains.
// The count of nodes and the grain, which a round draws first, are handed on as two numbers: a list needs the first alone, a delay the second.
use crate::random::Random;
use brute::Ask;
use netmap::{Link, Microseconds};
use std::alloc::{AllocError, Global};
use std::array;

pub const PLACES: usize = 8;

// Three to five nodes.
pub(crate) fn random_nodes(random: &mut Random) -> u8 {
    random.below(3) as u8 + 3
}

pub(crate) fn random_grain(random: &mut Random) -> u32 {
    match random.below(8) {
        0 => 10,
        1 => 7,
        x => x % 3 + 1,
    }
}

// One of the nodes.
fn random_node(random: &mut Random, nodes: u8) -> u8 {
    random.below(u32::from(nodes)) as u8
}

// A multiple of the grain, or one microsecond beside it.
fn edge_delay(random: &mut Random, grain: u32) -> u32 {
    let grains = random.below(4);
    let beside = random.below(3);
    grains
        .saturating_mul(grain)
        .saturating_add(beside)
        .saturating_sub(1)
}

// A link, or none; one whose ends are equal is left out too.
fn random_place(random: &mut Random, nodes: u8, grain: u32) -> Option<Link> {
    let tail = random_node(random, nodes);
    let head = random_node(random, nodes);
    let weight = random.below(2) as u16 + 1;
    let delay = Microseconds(edge_delay(random, grain));
    let figure = random.below(4);
    let filled = tail != head && random.below(8) != 0;
    filled.then_some(Link {
        tail,
        head,
        weight,
        delay,
        figure,
    })
}

pub(crate) fn random_places(random: &mut Random, nodes: u8, grain: u32) -> [Option<Link>; PLACES] {
    array::from_fn(|_| random_place(random, nodes, grain))
}

pub(crate) fn random_ask(random: &mut Random, nodes: u8, grain: u32) -> Ask {
    let bound = random.below(8).saturating_mul(grain);
    Ask {
        source: random_node(random, nodes),
        target: random_node(random, nodes),
        bound: bound.saturating_add(random.below(grain)),
        limit: random.below(3) as u16 + 1,
        grain,
    }
}

// Mostly a node or a place that there is, now and then a code that names nothing.
fn random_code(random: &mut Random, nodes: u8) -> u16 {
    match random.below(12) {
        0 => random.below(65_536) as u16,
        1 => u16::from(nodes),
        x if x < 7 => u16::from(random_node(random, nodes)),
        _ => random.below(9) as u16 + 256,
    }
}

pub(crate) fn random_codes(
    heap: Global,
    random: &mut Random,
    nodes: u8,
) -> Result<Vec<u16>, AllocError> {
    (0..random.below(4))
        .map(|_| random_code(random, nodes))
        .collect(heap)
}
