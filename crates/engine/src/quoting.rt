// A quote: the list within an order that precedes every other.
ghost use Rattle.std.specs.Prelude.{◌≡◌, ◌≤◌, length, None};
ghost use Rattle.segments.specs.Algebra.{algebra};
ghost use Rattle.engine.specs.Calls.{room_of, room_in, held_in, SameSlices, UntouchedBefore, Searched, QuoteCall, order_denial};

use crate::cells::SourceCells;
use crate::checks::{Room, check_order};
use crate::terms::Terms;
use crate::workspace::Workspace;
use netmap::{Map, Microseconds};
use questions::{Denial, Layer, Question};
use segments::{Figures, Grains, Labels, Order, Spread};
use tariff::Tariff;

// The search of a quote, for an order whose questions are all answered yes.
fn search_list<M: Map, V: Tariff>(
    map: &M,
    terms: Terms,
    dist: &mut [Option<u32>],
    spread: &mut [Option<Spread<V>>],
    table: &mut [Option<V>],
    list: &mut [u16],
) -> Result<Figures<V>, Denial>
    requires granted { order_denial (M.meaning map.now) terms.order (room_of dist.old spread.old table.old) ≡ None }
    requires space { terms.order.limit.0 ≤ length list.old }
    ensures { Searched (M.meaning map.now) (algebra V.good V.joining) terms.order list.old list.new result }
{
    let cells = SourceCells::of(map, terms, dist, spread, table);
    let Some(choice) = cells.choose() else {
        let index = terms.order.index;
        return Err(Denial::new(Question::AnyList, Layer::Order, index));
    };
    let delay = cells.rebuild(choice, list);
    Ok(Figures {
        value: choice.value,
        grains: Grains(choice.grains as u32),
        delay: Microseconds(delay),
        labels: Labels(choice.entries as u16),
    })
}

// The segment list for an order into the first places of the list space, and its figures.
pub fn quote<M: Map, V: Tariff>(
    map: &M,
    order: Order,
    work: &mut Workspace<'_, V>,
    list: &mut [u16],
) -> Result<Figures<V>, Denial>
    ensures call { QuoteCall (M.meaning map.now) (algebra V.good V.joining) order (room_in work.old) list.old list.new result }
    ensures slices { UntouchedBefore result (held_in work.old) (held_in work.new) }
    ensures same { SameSlices work.old work.new }
{
    let terms = check_order(map, order, Room::of(work))?;
    if list.len() < order.limit.0 as usize {
        return Err(Denial::new(Question::ListSpace, Layer::Order, order.index));
    }
    // slice by slice: of a slice that is lent on from a struct, the length is not known once the loan ends
    search_list(map, terms, work.dist, work.spread, work.table, list)
}
