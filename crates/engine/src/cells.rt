// The filled table, to be read from the source on.
ghost use Rattle.std.specs.Prelude.{◌≡◌, ◌+◌, ◌*◌, ◌<◌, ◌≤◌, length, None};
ghost use Rattle.segments.specs.Algebra.{algebra};
ghost use Rattle.segments.specs.Spreads.{Routed};
ghost use Rattle.engine.specs.Calls.{room_of, order_denial};
ghost use Rattle.engine.specs.Cells.{best_of, FilledTo};

use crate::search::Search;
use crate::terms::Terms;
use netmap::Map;
use segments::{Routes, Spread, route};
use tariff::{Ranking, Tariff};

// The cells of up to `limit` entries that a search filled, and the node where the lists begin.
#[derive(Drop)]
pub(crate) struct SourceCells<'r, 't, M, V> {
    pub search: Search<'r, M, V>,
    pub table: &'t [Option<V>],
    pub limit: usize,
    pub source: usize,
    ghost few: { limit ≤ 10 },
    ghost node: { source < search.routes.nodes },
    ghost room: { (limit + 1) * search.routes.nodes * (search.top + 1) ≤ length table.now },
}

impl<M, V: Ranking> SourceCells<'_, '_, M, V> {
    // What the cell of l entries at the node v with d grains holds.
    pub(crate) fn read(&self, l: usize, v: usize, d: usize) -> Option<V>
        requires labels { l ≤ self.now.limit }
        requires node { v < self.now.search.routes.nodes }
        requires grains { d ≤ self.now.search.top }
        ensures { result ≡ best_of self.now.search.routes.nodes self.now.search.top self.now.table.now l d v }
    {
        self.table[self.search.place(l, v, d)]
    }
}

impl<'a, M: Map, V: Tariff> SourceCells<'a, 'a, M, V> {
    // The table filled for an order whose questions are all answered yes, to be read from the order's source on.
    pub(crate) fn of(
        map: &'a M,
        terms: Terms,
        dist: &mut [Option<u32>],
        spread: &'a mut [Option<Spread<V>>],
        table: &'a mut [Option<V>],
    ) -> Self
        requires granted { order_denial (M.meaning map.now) terms.order (room_of dist.old spread.old table.old) ≡ None }
        ensures map { result.search.routes.map.now ≡ map.now }
        ensures routed { Routed (M.meaning result.search.routes.map.now) (algebra V.good V.joining) result.search.routes.nodes result.search.routes.spread.now }
        ensures grain { result.search.grain ≡ terms.grain }
        ensures top { result.search.top ≡ terms.top }
        ensures limit { result.limit ≡ terms.order.limit.0 }
        ensures source { result.source ≡ terms.order.source }
        ensures filled { FilledTo (M.meaning result.search.routes.map.now) (algebra V.good V.joining) result.search.grain.length.0 terms.order.target result.search.routes.nodes result.search.top result.limit result.table.now }
    {
        let nodes = map.nodes();
        let limit = terms.order.limit.0 as usize;
        route(map, nodes, dist, spread);
        let search = Search {
            routes: Routes { map, nodes, spread },
            grain: terms.grain,
            top: terms.top,
        };
        search.fill(limit, terms.order.target as usize, table);
        SourceCells {
            search,
            table,
            limit,
            source: terms.order.source as usize,
        }
    }
}
