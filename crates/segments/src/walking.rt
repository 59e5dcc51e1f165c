// Walking a given segment list.
// Numbers are widened by `as`, as in `ecmp.rt`.
ghost use Rattle.std.specs.Prelude.{◌≡◌, ◌<◌, ◌≤◌, length, Some, None, MatchResult};
ghost use Rattle.segments.specs.Algebra.{algebra};
ghost use Rattle.segments.specs.Entries.{Stays, Extended};
ghost use Rattle.segments.specs.Spreads.{Routed};
ghost use Rattle.segments.specs.Walks.{WalkCall, WalkReply, walk_denial};

use crate::figures::{Figures, Leg, Spread, Walk};
use crate::routing::{Routes, route};
use crate::units::{Grain, Grains, Labels, round_up};
use netmap::{Map, Microseconds};
use questions::{Denial, Layer, Question};
use tariff::Tariff;

const MAX_ENTRIES: usize = 10;

// Asks of the source, the grain, the lengths of the working slices and that of the list: of lengths, since no question is about what they hold.
fn check_walk(
    n: usize,
    source: u8,
    grain: Microseconds,
    dist: usize,
    spread: usize,
    count: usize,
) -> Result<Grain, Denial>
    requires { n ≤ 64 }
    ensures { MatchResult result
        (λ g. (walk_denial n source grain.0 dist spread count ≡ None) × (g.length ≡ grain))
        (λ d. walk_denial n source grain.0 dist spread count ≡ Some d) }
{
    if source as usize >= n {
        return Err(Denial::new(Question::OrderNodes, Layer::Order, 0));
    }
    let Some(grain) = Grain::new(grain) else {
        return Err(Denial::new(Question::GrainRange, Layer::Order, 0));
    };
    if dist < n * n || spread < n * n {
        return Err(Denial::new(Question::WorkingSpace, Layer::Order, 0));
    }
    if count > MAX_ENTRIES {
        return Err(Denial::new(Question::WalkLength, Layer::Order, 0));
    }
    Ok(grain)
}

// The list without entries: it ends where it begins.
fn stay<V: Tariff>(source: u8) -> Walk<V>
    ensures { Stays (algebra V.good V.joining) source result }
{
    Walk {
        end: source,
        figures: Figures {
            value: V::neutral(),
            grains: Grains(0),
            delay: Microseconds(0),
            labels: Labels(0),
        },
    }
}

// One entry more: delays add up, and each is rounded up to grains by itself.
fn extend<V: Tariff>(walked: Walk<V>, leg: Leg<V>, grain: Grain) -> Walk<V>
    requires step { leg.delay.0 ≤ 6300000 }
    requires delay { walked.figures.delay.0 ≤ 63000000 }
    requires grains { walked.figures.grains.0 ≤ 63000000 }
    requires labels { walked.figures.labels.0 ≤ 10 }
    ensures { Extended (algebra V.good V.joining) grain.length.0 walked leg result }
{
    let figures = walked.figures;
    let steps = round_up(leg.delay, grain);
    Walk {
        end: leg.to,
        figures: Figures {
            value: figures.value.join(leg.value),
            grains: Grains(figures.grains.0 + steps.0),
            delay: Microseconds(figures.delay.0 + leg.delay.0),
            labels: Labels(figures.labels.0 + 1),
        },
    }
}

impl<'a, M: Map, V: Tariff> Routes<'a, M, V> {
    // The list from its source, entry by entry, up to the first that is illegal where the one before ended.
    fn follow(&self, source: u8, grain: Grain, list: &[u16]) -> Result<Walk<V>, Denial>
        requires routed { Routed (M.meaning self.now.map.now) (algebra V.good V.joining) self.now.nodes self.now.spread.now }
        requires from { source < self.now.nodes }
        requires short { length list.now ≤ 10 }
        ensures { WalkReply (M.meaning self.now.map.now) (algebra V.good V.joining) source grain.length.0 list.now result }
    {
        let mut walked = stay(source);
        for (i, code) in list.iter().enumerate() {
            let Some(leg) = self.entry(walked.end as usize, *code) else {
                return Err(Denial::new(Question::EntryLegal, Layer::List, i));
            };
            walked = extend(walked, leg, grain);
        }
        Ok(walked)
    }
}

// Walks the list from the source, with working slices of n × n slots for n nodes.
// A denial by any question but that of a legal entry leaves the slices as they were.
pub fn walk<M: Map, V: Tariff>(
    map: &M,
    source: u8,
    grain: Microseconds,
    list: &[u16],
    dist: &mut [Option<u32>],
    spread: &mut [Option<Spread<V>>],
) -> Result<Walk<V>, Denial>
    ensures { WalkCall (M.meaning map.now) (algebra V.good V.joining) source grain.0 list.now dist.old dist.new spread.old spread.new result }
{
    let nodes = map.nodes();
    let grain = check_walk(nodes, source, grain, dist.len(), spread.len(), list.len())?;
    route(map, nodes, dist, spread);
    let routes = Routes { map, nodes, spread };
    routes.follow(source, grain, list)
}
