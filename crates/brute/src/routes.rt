// Best paths, picked out of all chains of links.
use crate::growth::grown;
use netmap::Link;
use std::alloc::{AllocError, Global};
use std::cmp::Ordering;
use std::collections::BTreeMap;

// What a link is worth and how values join; the smaller is better, and 0 is neutral.
// An enum, since the rules are two for good, and a trait would put a parameter on every type below.
#[derive(Clone, Copy)]
pub enum Rule {
    Cost,
    Scarcity,
}

impl Rule {
    pub(crate) fn of_link(self, link: Link) -> u32 {
        match self {
            Rule::Cost => u32::from(link.weight),
            Rule::Scarcity => link.figure,
        }
    }

    pub(crate) fn join(self, first: u32, next: u32) -> u32 {
        match self {
            Rule::Cost => first.saturating_add(next),
            Rule::Scarcity => first.max(next),
        }
    }
}

// What a chain of links comes to, or what all best chains between two nodes do; the default is of no links.
#[derive(Clone, Copy, Default)]
pub struct Route {
    pub weight: u32,
    pub delay: u32,
    pub value: u32,
}

impl Route {
    fn longer(self, rule: Rule, link: Link) -> Route {
        Route {
            weight: self.weight.saturating_add(u32::from(link.weight)),
            delay: self.delay.saturating_add(link.delay.0),
            value: rule.join(self.value, rule.of_link(link)),
        }
    }

    // The lighter of two; of two as light the larger delay and the worse value, since traffic may take either.
    // Written apart from the engine's rule, which it is held against.
    fn merge(self, other: Route) -> Route {
        match self.weight.cmp(&other.weight) {
            Ordering::Less => self,
            Ordering::Greater => other,
            Ordering::Equal => Route {
                weight: self.weight,
                delay: self.delay.max(other.delay),
                value: self.value.max(other.value),
            },
        }
    }
}

// A chain of links: the node where it ends, and what it comes to.
#[derive(Clone, Copy)]
struct Chain {
    end: u8,
    route: Route,
}

// A network, with a route for each pair of different nodes that a chain joins, from the first to the second.
#[derive(Drop)]
pub struct Net<'a> {
    pub rule: Rule,
    pub nodes: u8,
    pub places: &'a [Option<Link>],
    pub routes: BTreeMap<(u8, u8), Route>,
}

impl<'a> Net<'a> {
    pub fn new(
        heap: Global,
        rule: Rule,
        nodes: u8,
        places: &'a [Option<Link>],
    ) -> Result<Net<'a>, AllocError> {
        let mut net = Net {
            rule,
            nodes,
            places,
            routes: BTreeMap::new(heap),
        };
        // a loop, since adding routes may want memory
        for from in 0..nodes {
            let chains = net.chains_from(heap, from)?;
            net.add_routes(from, &chains)?;
        }
        Ok(net)
    }

    // All chains of fewer links than there are nodes; as weights are positive, no best one is longer.
    fn chains_from(&self, heap: Global, from: u8) -> Result<Vec<Chain>, AllocError> {
        let first = Chain {
            end: from,
            route: Route::default(),
        };
        let rounds = u16::from(self.nodes.saturating_sub(1));
        grown(heap, first, rounds, |chain, all| {
            self.add_longer(chain, all)
        })
    }

    // Adds the chains that have one link more than the given one.
    fn add_longer(&self, chain: Chain, all: &mut Vec<Chain>) -> Result<(), AllocError> {
        for link in self.places.iter().flatten() {
            if link.tail == chain.end {
                all.push(Chain {
                    end: link.head,
                    route: chain.route.longer(self.rule, *link),
                })?;
            }
        }
        Ok(())
    }

    // Adds the route to each other node, if any chain ends there.
    fn add_routes(&mut self, from: u8, chains: &[Chain]) -> Result<(), AllocError> {
        for to in (0..self.nodes).filter(|to| *to != from) {
            if let Some(route) = route_to(chains, to) {
                self.routes.insert((from, to), route)?;
            }
        }
        Ok(())
    }
}

// What the chains that end at a node come to.
fn route_to(chains: &[Chain], to: u8) -> Option<Route> {
    chains
        .iter()
        .filter(|chain| chain.end == to)
        .map(|chain| chain.route)
        .reduce(Route::merge)
}
