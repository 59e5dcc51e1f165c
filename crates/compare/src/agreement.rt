// The engine's replies, held to what enumeration found.
use brute::{Ask, List, Outcome, Pair, Rule, on_front, packed};
use engine::{Workspace, front, quote};
use netmap::{Link, Map, Microseconds, RecordTable};
use questions::{Denial, Question};
use segments::{Figures, Labels, Order, Spread, Walk, walk};
use std::alloc::{AllocError, Global};
use tariff::{Cost, Scarcity, Tariff};

// A tariff whose rule the enumeration has too.
pub trait Known: Tariff {
    const RULE: Rule;

    fn number(self) -> u32;
}

impl Known for Cost {
    const RULE: Rule = Rule::Cost;

    fn number(self) -> u32 {
        self.weight
    }
}

impl Known for Scarcity {
    const RULE: Rule = Rule::Scarcity;

    fn number(self) -> u32 {
        self.figure
    }
}

// The most nodes of a map here.
const NODES: usize = 5;

// The most entries of a list.
const ENTRIES: usize = 3;

// The most grains of a bound.
const GRAINS: usize = 1000;

// The working slices of the engine's calls.
#[derive(Drop)]
struct Slices<V> {
    dist: Vec<Option<u32>>,
    spread: Vec<Option<Spread<V>>>,
    table: Vec<Option<V>>,
}

impl<V: Known> Slices<V> {
    fn lend(&mut self) -> Workspace<'_, V> {
        Workspace {
            dist: &mut self.dist,
            spread: &mut self.spread,
            table: &mut self.table,
        }
    }
}

// What the engine works in, and writes to.
#[derive(Drop)]
pub struct Space<V> {
    slices: Slices<V>,
    list: Vec<u16>,
    slots: Vec<Option<V>>,
}

// The engine's calls, in a space.
impl<V: Known> Space<V> {
    pub(crate) fn new(heap: Global) -> Result<Space<V>, AllocError> {
        Ok(Space {
            slices: Slices {
                dist: vec![in heap; None; NODES * NODES]?,
                spread: vec![in heap; None; NODES * NODES]?,
                table: vec![in heap; None; (ENTRIES + 1) * NODES * (GRAINS + 1)]?,
            },
            list: vec![in heap; 0; ENTRIES]?,
            slots: vec![in heap; None; GRAINS + 1]?,
        })
    }

    pub(crate) fn quote(
        &mut self,
        map: &RecordTable<'_>,
        order: Order,
    ) -> Result<Figures<V>, Denial> {
        quote(map, order, &mut self.slices.lend(), &mut self.list)
    }

    fn front(&mut self, map: &RecordTable<'_>, order: Order) -> Result<usize, Denial> {
        front(map, order, &mut self.slices.lend(), &mut self.slots)
    }

    fn walk(&mut self, map: &RecordTable<'_>, ask: Ask, codes: &[u16]) -> Result<Walk<V>, Denial> {
        walk(
            map,
            ask.source,
            Microseconds(ask.grain),
            codes,
            &mut self.slices.dist,
            &mut self.slices.spread,
        )
    }
}

// Opens the map, and puts the links at their places.
// `fill` of `segments_tests` knows no empty places: one function for both would turn its arrays into arrays of options.
pub(crate) fn lay_out(
    map: &mut RecordTable<'_>,
    nodes: u8,
    places: &[Option<Link>],
) -> Result<(), Denial> {
    map.open(usize::from(nodes))?;
    for (i, place) in places.iter().enumerate() {
        if let Some(link) = *place {
            map.put(i, link)?;
        }
    }
    Ok(())
}

pub(crate) fn order_of(ask: Ask) -> Order {
    Order {
        index: 0,
        source: ask.source,
        target: ask.target,
        bound: Microseconds(ask.bound),
        limit: Labels(ask.limit),
        grain: Microseconds(ask.grain),
    }
}

// What a list that ends at a node comes to, as the enumeration gives it.
fn outcome_of<V: Known>(end: u8, figures: Figures<V>) -> Outcome {
    Outcome {
        end,
        value: figures.value.number(),
        grains: figures.grains.0,
        delay: figures.delay.0,
    }
}

// Are these the codes of a list? Its number tells codes apart that are below 512, as those of a map are.
fn has_codes(list: List, codes: &[u16]) -> bool {
    packed(codes) == list.codes && codes.iter().all(|code| *code < 512)
}

pub(crate) fn quote_agrees<V: Known>(
    map: &RecordTable<'_>,
    ask: Ask,
    space: &mut Space<V>,
    expected: Option<List>,
) -> bool {
    match (space.quote(map, order_of(ask)), expected) {
        (Ok(figures), Some(list)) => {
            let codes = space.list.get(..usize::from(figures.labels.0));
            outcome_of(ask.target, figures) == list.outcome
                && figures.labels.0 == list.entries
                && codes.is_some_and(|codes| has_codes(list, codes))
        }
        (Err(denial), None) => denial.question == Question::AnyList,
        _ => false,
    }
}

// The number of pairs on the front, if the engine agrees on all of them.
pub(crate) fn agreed_pairs<V: Known>(
    map: &RecordTable<'_>,
    ask: Ask,
    space: &mut Space<V>,
    pairs: &[Pair],
) -> Option<usize> {
    let held = space.front(map, order_of(ask)).ok()?;
    let top = ask.bound.checked_div(ask.grain)?;
    let slots = space.slots.get(..=top as usize)?;
    let agree = (0..=top).zip(slots).all(|(grains, slot)| slot.map(V::number)
        == on_front(pairs, grains));
    (agree && slots.iter().flatten().count() == held).then_some(held)
}

pub(crate) fn walk_agrees<V: Known>(
    map: &RecordTable<'_>,
    ask: Ask,
    codes: &[u16],
    space: &mut Space<V>,
    expected: Result<Outcome, usize>,
) -> bool {
    match (space.walk(map, ask, codes), expected) {
        (Ok(walk), Ok(outcome)) => {
            outcome_of(walk.end, walk.figures) == outcome
                && usize::from(walk.figures.labels.0) == codes.len()
        }
        (Err(denial), Err(i)) => { denial.question == Question::EntryLegal && denial.place == i }
        _ => false,
    }
}
