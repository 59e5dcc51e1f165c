// The table of best values: of lists of exactly l entries and d grains from each node to the target.
ghost use Rattle.std.specs.Prelude.{◌≡◌, ℕ, ◌+◌, ◌*◌, ◌<◌, ◌≤◌, length, None, slice_index_or};
ghost use Rattle.netmap.specs.Net.{Net};
ghost use Rattle.segments.specs.Algebra.{algebra};
ghost use Rattle.segments.specs.Spreads.{Routed};
ghost use Rattle.engine.specs.Cells.{slot, best_of, LevelTo, FilledTo, Row, Cell};

use crate::hops::CODES;
use crate::search::Search;
use crate::table::improve;
use netmap::Map;
use tariff::Tariff;

impl<M: Map, V: Tariff> Search<'_, M, V> {
    // Fills the row of l + 1 entries at the node v from the rows of l entries, which lie below it.
    fn fill_row(&self, l: usize, v: usize, below: &[Option<V>], row: &mut [Option<V>])
        requires routed { Routed (M.meaning self.now.routes.map.now) (algebra V.good V.joining) self.now.routes.nodes self.now.routes.spread.now }
        requires labels { l ≤ 10 }
        requires node { v < self.now.routes.nodes }
        requires room { slot self.now.routes.nodes self.now.top (l + 1) 0 0 ≤ length below.now }
        requires long { length row.old ≡ self.now.top + 1 }
        ensures { (target : ℕ) → Row (M.meaning self.now.routes.map.now) (algebra V.good V.joining) self.now.grain.length.0 target self.now.top l (best_of self.now.routes.nodes self.now.top below.now l) → (d : ℕ) → d ≤ self.now.top → Cell (M.meaning self.now.routes.map.now) (algebra V.good V.joining) self.now.grain.length.0 target (l + 1) d v (slice_index_or row.new d None) }
    {
        row.fill(None);
        // every legal code may better the row, which `improve` then writes
        for code in 0..CODES {
            if let Some(hop) = self.hop(v, code) {
                if hop.grains <= self.top {
                    let rests = self.place(l, hop.leg.to as usize, 0);
                    improve(&below[rests..], &mut row[hop.grains..], hop.leg.value);
                }
            }
        }
    }

    // Fills the rows of l + 1 entries from those of l entries.
    fn fill_level(&self, l: usize, table: &mut [Option<V>])
        requires routed { Routed (M.meaning self.now.routes.map.now) (algebra V.good V.joining) self.now.routes.nodes self.now.routes.spread.now }
        requires labels { l < 10 }
        requires room { (l + 2) * self.now.routes.nodes * (self.now.top + 1) ≤ length table.old }
        ensures { LevelTo (M.meaning self.now.routes.map.now) (algebra V.good V.joining) self.now.grain.length.0 self.now.routes.nodes self.now.top l self.now.routes.nodes table.old table.new }
    {
        // a node's number gives its row
        for v in 0..self.routes.nodes {
            let (below, rest) = table.split_at_mut(self.place(l + 1, v, 0));
            self.fill_row(l, v, below, &mut rest[..self.top + 1]);
        }
    }

    // Fills the rows of no entries: the neutral value at the target.
    fn fill_first(&self, target: usize, table: &mut [Option<V>])
        requires node { target < self.now.routes.nodes }
        requires room { self.now.routes.nodes * (self.now.top + 1) ≤ length table.old }
        ensures { (net : Net) (grain : ℕ) → self.now.routes.nodes ≡ net.nodes → Row net (algebra V.good V.joining) grain target self.now.top 0 (best_of self.now.routes.nodes self.now.top table.new 0) }
    {
        table[..self.routes.nodes * (self.top + 1)].fill(None);
        table[self.place(0, target, 0)] = Some(V::neutral());
    }

    // Fills the table: the best value of a list of exactly l entries and exactly d grains from v to the target.
    pub(crate) fn fill(&self, limit: usize, target: usize, table: &mut [Option<V>])
        requires routed { Routed (M.meaning self.now.routes.map.now) (algebra V.good V.joining) self.now.routes.nodes self.now.routes.spread.now }
        requires labels { limit ≤ 10 }
        requires node { target < self.now.routes.nodes }
        requires room { (limit + 1) * self.now.routes.nodes * (self.now.top + 1) ≤ length table.old }
        ensures { FilledTo (M.meaning self.now.routes.map.now) (algebra V.good V.joining) self.now.grain.length.0 target self.now.routes.nodes self.now.top limit table.new }
    {
        self.fill_first(target, table);
        // a level is known by its number of entries
        for l in 0..limit {
            self.fill_level(l, table);
        }
    }
}
