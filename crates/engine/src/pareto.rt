// The Pareto front of grains and value, over all lists within an order.
ghost use Rattle.std.specs.Prelude.{◌≡◌, ◌+◌, ◌≤◌, length, None, Ok};
ghost use Rattle.segments.specs.Algebra.{algebra};
ghost use Rattle.engine.specs.Calls.{room_of, room_in, held_in, SameSlices, Untouched, FrontCall, order_denial};
ghost use Rattle.engine.specs.Cells.{cells_at};
ghost use Rattle.engine.specs.Chosen.{Passed, Whole};
ghost use Rattle.engine.specs.Fronts.{held as held_count};
ghost use Rattle.engine.specs.Offers.{Gathered};

use crate::cells::SourceCells;
use crate::checks::{Room, check_order};
use crate::terms::Terms;
use crate::workspace::Workspace;
use keeper::{empty_slots, offer};
use netmap::Map;
use questions::{Denial, Layer, Question};
use segments::{Grains, Order, Spread};
use tariff::{Ranking, Tariff};

impl<M, V: Ranking> SourceCells<'_, '_, M, V> {
    // Offers the cells of d grains at the source to the front.
    fn offer_column(&self, d: usize, slots: &mut [Option<V>])
        requires grains { d ≤ self.now.search.top }
        requires long { length slots.old ≡ self.now.search.top + 1 }
        requires gathered { Gathered V.good (cells_at self.now.search.routes.nodes self.now.search.top self.now.table.now self.now.source) (Passed self.now.limit d 0) slots.old }
        ensures { Gathered V.good (cells_at self.now.search.routes.nodes self.now.search.top self.now.table.now self.now.source) (Passed self.now.limit (d + 1) 0) slots.new }
    {
        // a cell is read by its numbers of entries and of grains
        for l in 0..self.limit + 1 {
            if let Some(value) = self.read(l, self.source, d) {
                let _ = offer(slots, Grains(d as u32), value);
            }
        }
    }

    // Leaves in the slots the front of all cells at the source.
    fn gather(&self, slots: &mut [Option<V>])
        requires { length slots.old ≡ self.now.search.top + 1 }
        ensures { Gathered V.good (cells_at self.now.search.routes.nodes self.now.search.top self.now.table.now self.now.source) (Whole self.now.limit self.now.search.top) slots.new }
    {
        empty_slots(slots);
        // a pair is offered with its number of grains
        for d in 0..self.search.top + 1 {
            self.offer_column(d, slots);
        }
    }
}

// How many slots hold a value.
fn count_held<V: Ranking>(slots: &[Option<V>]) -> usize
    ensures { result ≡ held_count slots.now }
{
    slots.iter().filter(|slot| slot.is_some()).count()
}

// The search of a front, for an order whose questions are all answered yes.
fn search_front<M: Map, V: Tariff>(
    map: &M,
    terms: Terms,
    dist: &mut [Option<u32>],
    spread: &mut [Option<Spread<V>>],
    table: &mut [Option<V>],
    slots: &mut [Option<V>],
) -> usize
    requires granted { order_denial (M.meaning map.now) terms.order (room_of dist.old spread.old table.old) ≡ None }
    requires space { terms.top + 1 ≤ length slots.old }
    ensures { FrontCall (M.meaning map.now) (algebra V.good V.joining) terms.order (room_of dist.old spread.old table.old) slots.old slots.new (Ok result) }
{
    let cells = SourceCells::of(map, terms, dist, spread, table);
    let part = &mut slots[..terms.top + 1];
    cells.gather(part);
    count_held(part)
}

// The front of an order into a slot for each number of grains, and how many pairs it has.
pub fn front<M: Map, V: Tariff>(
    map: &M,
    order: Order,
    work: &mut Workspace<'_, V>,
    slots: &mut [Option<V>],
) -> Result<usize, Denial>
    ensures call { FrontCall (M.meaning map.now) (algebra V.good V.joining) order (room_in work.old) slots.old slots.new result }
    ensures slices { Untouched result (held_in work.old) (held_in work.new) }
    ensures same { SameSlices work.old work.new }
{
    let terms = check_order(map, order, Room::of(work))?;
    if slots.len() < terms.top + 1 {
        return Err(Denial::new(Question::FrontSpace, Layer::Order, order.index));
    }
    // slice by slice: of a slice that is lent on from a struct, the length is not known once the loan ends
    Ok(search_front(map, terms, work.dist, work.spread, work.table, slots))
}
