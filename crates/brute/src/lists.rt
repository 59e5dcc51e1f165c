// Segment lists, all of them up to a number of entries.
use crate::growth::grown;
use crate::routes::Net;
use std::alloc::{AllocError, Global};

// The code of the link at place 0.
const FIRST_LINK: u16 = 256;

// What is asked for: a list from a source to a target, within a bound and a number of entries.
#[derive(Clone, Copy)]
pub struct Ask {
    pub source: u8,
    pub target: u8,
    pub bound: u32,
    pub limit: u16,
    pub grain: u32,
}

// What a list comes to: where it ends, its value, and its delay in grains and in microseconds.
#[derive(Clone, Copy, PartialEq, Eq, Debug)]
pub struct Outcome {
    pub end: u8,
    pub value: u32,
    pub grains: u32,
    pub delay: u32,
}

// A segment list and what it comes to.
// Its codes are the digits of a number in base 512, so that a list takes no memory of its own and is copied as it stands;
// lists of one length, up to seven entries with codes below 512, stand in the order of their numbers.
#[derive(Clone, Copy, PartialEq, Eq, Debug)]
pub struct List {
    pub outcome: Outcome,
    pub entries: u16,
    pub codes: u64,
}

fn add_digit(codes: u64, code: u16) -> u64 {
    codes.wrapping_mul(512).wrapping_add(u64::from(code))
}

// The number that stands for the codes of a list.
pub fn packed(codes: &[u16]) -> u64 {
    codes
        .iter()
        .fold(0, |number, code| add_digit(number, *code))
}

// What an entry does at a node.
#[derive(Clone, Copy)]
struct Leap {
    to: u8,
    delay: u32,
    value: u32,
}

// Along all best paths to a node.
fn leap_to_node(net: &Net<'_>, at: u8, to: u8) -> Option<Leap> {
    net.routes.get(&(at, to)).map(|route| Leap {
        to,
        delay: route.delay,
        value: route.value,
    })
}

// Along the link at a place, from its tail only.
fn leap_by_link(net: &Net<'_>, at: u8, place: usize) -> Option<Leap> {
    let link = net.places.get(place).copied()??;
    (link.tail == at).then(|| Leap {
        to: link.head,
        delay: link.delay.0,
        value: net.rule.of_link(link),
    })
}

fn leap_at(net: &Net<'_>, at: u8, code: u16) -> Option<Leap> {
    match code.checked_sub(FIRST_LINK) {
        Some(place) => leap_by_link(net, at, usize::from(place)),
        None => leap_to_node(net, at, u8::try_from(code).ok()?),
    }
}

// A delay in whole grains, where a part of a grain counts as one; no number is enough if a grain has no microseconds.
fn whole_grains(delay: u32, grain: u32) -> u32 {
    if grain == 0 {
        return u32::MAX;
    }
    delay.div_ceil(grain)
}

impl Outcome {
    // Of a list with no entries.
    pub(crate) fn at(source: u8) -> Outcome {
        Outcome {
            end: source,
            value: 0,
            grains: 0,
            delay: 0,
        }
    }

    // Of a list with one entry more, if it is legal. The grain goes beside the network: it is of what is asked, and a walk asks for no more.
    pub(crate) fn then(self, net: &Net<'_>, grain: u32, code: u16) -> Option<Outcome> {
        let leap = leap_at(net, self.end, code)?;
        let grains = whole_grains(leap.delay, grain);
        Some(Outcome {
            end: leap.to,
            value: net.rule.join(self.value, leap.value),
            grains: self.grains.saturating_add(grains),
            delay: self.delay.saturating_add(leap.delay),
        })
    }
}

impl Ask {
    pub(crate) fn allows(self, outcome: Outcome) -> bool {
        let used = outcome.grains.checked_mul(self.grain);
        outcome.end == self.target && used.is_some_and(|used| used <= self.bound)
    }
}

impl List {
    // With no entries.
    fn empty(source: u8) -> List {
        List {
            outcome: Outcome::at(source),
            entries: 0,
            codes: 0,
        }
    }

    // With one entry more, of the given code.
    fn longer(self, code: u16, outcome: Outcome) -> List {
        List {
            outcome,
            entries: self.entries.saturating_add(1),
            codes: add_digit(self.codes, code),
        }
    }

    // Of two lists within an order, the one with the smaller key precedes.
    pub(crate) fn precedence(self) -> (u32, u32, u16, u64) {
        let Outcome { value, grains, .. } = self.outcome;
        (value, grains, self.entries, self.codes)
    }
}

// The code of the link at a place, or the last code where no code is left for it.
fn link_code(place: usize) -> u16 {
    u16::try_from(place).map_or(u16::MAX, |place| FIRST_LINK.saturating_add(place))
}

// Adds the lists that have one entry more than the given one.
fn add_longer(
    net: &Net<'_>,
    grain: u32,
    list: List,
    all: &mut Vec<List>,
) -> Result<(), AllocError> {
    let nodes = 0..u16::from(net.nodes);
    let links = (0..net.places.len()).map(link_code);
    for code in nodes.chain(links) {
        if let Some(outcome) = list.outcome.then(net, grain, code) {
            all.push(list.longer(code, outcome))?;
        }
    }
    Ok(())
}

// Every list from the source within the number of entries, the shorter first, wherever it ends and whatever its delay.
pub(crate) fn all_lists(heap: Global, net: &Net<'_>, ask: Ask) -> Result<Vec<List>, AllocError> {
    grown(heap, List::empty(ask.source), ask.limit, |list, all| {
        add_longer(net, ask.grain, list, all)
    })
}
