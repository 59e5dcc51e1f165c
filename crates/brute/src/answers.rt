// What an order and a walk come to, by the rules alone.
pub use crate::lists::Ask;
use crate::lists::{List, Outcome, all_lists};
use crate::routes::Net;
use std::alloc::{AllocError, Global};

// The grains and the value of a list.
#[derive(Clone, Copy, PartialEq, Eq, Debug)]
pub struct Pair {
    pub grains: u32,
    pub value: u32,
}

impl Pair {
    // Has it as few grains and as good a value?
    fn is_as_good(self, other: Pair) -> bool {
        self.grains <= other.grains && self.value <= other.value
    }
}

fn lists_within(heap: Global, net: &Net<'_>, ask: Ask) -> Result<Vec<List>, AllocError> {
    let mut lists = all_lists(heap, net, ask)?;
    lists.retain(|list| ask.allows(list.outcome));
    Ok(lists)
}

// The one that precedes; the second, where neither does.
fn first_of(kept: List, next: List) -> List {
    if kept.precedence() < next.precedence() {
        kept
    } else {
        next
    }
}

// The list within what is asked that precedes all others.
pub fn best_list(heap: Global, net: &Net<'_>, ask: Ask) -> Result<Option<List>, AllocError> {
    let lists = lists_within(heap, net, ask)?;
    Ok(lists.iter().copied().reduce(first_of))
}

// The grains and the value of each list within what is asked.
pub fn pairs_within(heap: Global, net: &Net<'_>, ask: Ask) -> Result<Vec<Pair>, AllocError> {
    let lists = lists_within(heap, net, ask)?;
    lists
        .iter()
        .map(|list| Pair {
            grains: list.outcome.grains,
            value: list.outcome.value,
        })
        .collect(heap)
}

// Does no other pair have as few grains and as good a value?
fn is_unbeaten(pairs: &[Pair], pair: Pair) -> bool {
    pairs
        .iter()
        .all(|other| *other == pair || !other.is_as_good(pair))
}

// The value that stands on the front at so many grains.
pub fn on_front(pairs: &[Pair], grains: u32) -> Option<u32> {
    pairs
        .iter()
        .find(|pair| pair.grains == grains && is_unbeaten(pairs, **pair))
        .map(|pair| pair.value)
}

// What a given list comes to, or the index of the first entry that is illegal.
pub fn walked(net: &Net<'_>, source: u8, grain: u32, codes: &[u16]) -> Result<Outcome, usize> {
    codes
        .iter()
        .enumerate()
        .try_fold(Outcome::at(source), |outcome, (i, code)| {
            outcome.then(net, grain, *code).ok_or(i)
        })
}
