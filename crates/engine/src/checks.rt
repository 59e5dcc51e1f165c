// The questions that a quote and a front both ask of an order.
// Numbers are widened by `as` in this crate, as in `segments`: a proof need not carry a call's result then.
ghost use Rattle.std.specs.Prelude.{◌≡◌, ◌+◌, ◌*◌, ◌≤◌, ◌&&◌, nat_le, Some, None, MatchResult};
ghost use Rattle.engine.specs.Calls.{room_in, order_denial};

use crate::terms::Terms;
use crate::workspace::Workspace;
use netmap::Map;
use questions::{Denial, Layer, Question};
use segments::{Grain, Labels, Order};

const MAX_LIMIT: Labels = Labels(10);

const MAX_GRAINS: usize = 1000;

// The lengths of the three working slices.
#[derive(Clone, Copy)]
pub struct Room {
    pub dist: usize,
    pub spread: usize,
    pub table: usize,
}

impl Room {
    pub(crate) fn of<V>(work: &Workspace<'_, V>) -> Room
        ensures { result ≡ room_in work.now }
    {
        Room {
            dist: work.dist.len(),
            spread: work.spread.len(),
            table: work.table.len(),
        }
    }

    // Do the working slices hold what the search needs?
    fn holds(self, n: usize, limit: usize, top: usize) -> bool
        requires nodes { n ≤ 64 }
        requires labels { limit ≤ 10 }
        requires grains { top ≤ 1000 }
        ensures { result ≡ (nat_le (n * n) self.dist && nat_le (n * n) self.spread && nat_le ((limit + 1) * (top + 1) * n) self.table) }
    {
        n * n <= self.dist && n * n <= self.spread && (limit + 1) * (top + 1) * n <= self.table
    }
}

// Asks of the nodes, the label limit, the grain, the bound and the working slices. `walk` asks less, and of no order.
pub(crate) fn check_order<M: Map>(map: &M, order: Order, room: Room) -> Result<Terms, Denial>
    ensures { MatchResult result
        (λ t. (order_denial (M.meaning map.now) order room ≡ None) × (t.order ≡ order))
        (λ d. order_denial (M.meaning map.now) order room ≡ Some d) }
{
    let n = map.nodes();
    if order.source as usize >= n || order.target as usize >= n {
        return Err(Denial::new(Question::OrderNodes, Layer::Order, order.index));
    }
    if order.limit < Labels(1) || order.limit > MAX_LIMIT {
        return Err(Denial::new(Question::LabelLimit, Layer::Order, order.index));
    }
    let Some(grain) = Grain::new(order.grain) else {
        return Err(Denial::new(Question::GrainRange, Layer::Order, order.index));
    };
    let top = (order.bound.0 / grain.length.0) as usize;
    if top > MAX_GRAINS {
        return Err(Denial::new(Question::BoundGrains, Layer::Order, order.index));
    }
    if !room.holds(n, order.limit.0 as usize, top) {
        return Err(Denial::new(Question::WorkingSpace, Layer::Order, order.index));
    }
    Ok(Terms { order, grain, top })
}
