// The figures of node segments, over all best paths (ECMP).
// Numbers are widened by `as`: `usize::from` is a call, and each proof would have to carry its result along.
ghost use Rattle.std.specs.Prelude.{◌≡◌, ℕ, ◌*◌, ◌<◌, ◌+◌, ◌≤◌, true, false, length, ◌≢◌};
ghost use Rattle.segments.specs.Algebra.{algebra};
ghost use Rattle.segments.specs.Distances.{LeastOf, Measured, lesser_of, table_of};
ghost use Rattle.segments.specs.Spreads.{TightAt, WayAt, FiguresOf, HeadsFigured, ColumnFigured, Figured, InNet, ColumnOf, Keyed, Spared, EmptyAt, AllEmpty, bar_of, onward, rank, rank_of, worse_of};

use crate::figures::{Spread, read_slot, write_slot};
use crate::near::Near;
use netmap::{Link, Map, Microseconds, held};
use tariff::Tariff;

// The most nodes of a map.
const MOST_NODES: usize = 64;

// A map with the distances of all pairs of its nodes.
// That they are its distances is a clause of each call, as for `Routes`, and so is that a node is below their count: a type of such nodes
// would have to name the map that they are of. The other slice is lent to be written, so its length is a clause too.
#[derive(Drop)]
pub(crate) struct Distances<'a, M> {
    pub(crate) map: &'a M,
    pub(crate) nodes: usize,
    pub(crate) slots: &'a [Option<u32>],
    ghost few: { nodes ≤ 64 },
    ghost sized: { nodes * nodes ≤ length slots.now },
}

// The larger delay and the worse value, where `nearer` keeps the first of two.
fn worse<V: Tariff>(found: Option<Spread<V>>, next: Spread<V>) -> Spread<V>
    ensures { result ≡ worse_of (algebra V.good V.joining) found next }
{
    let Some(found) = found else {
        return next;
    };
    Spread {
        delay: found.delay.max(next.delay),
        value: if found.value.as_good(next.value) {
            next.value
        } else {
            found.value
        },
    }
}

// Along a link, and then what the rest comes to.
fn go_on<V: Tariff>(link: Link, rest: Spread<V>) -> Spread<V>
    requires own { link.delay.0 ≤ 100000 }
    requires rest { rest.delay.0 ≤ 6300000 }
    ensures { result ≡ onward (algebra V.good V.joining) link rest }
{
    Spread {
        delay: Microseconds(link.delay.0 + rest.delay.0),
        value: V::of_link(link).join(rest.value),
    }
}

// Does a node come after the last one, if there was one?
fn follows(last: Option<Near>, next: Near) -> bool
    requires last { InNet last }
    requires next { next.node < 64 }
    ensures yes { result ≡ true → bar_of last ≤ rank next }
    ensures no { result ≡ false → rank next < bar_of last }
{
    last.is_none_or(|last| last < next)
}

// The first of what there is and another: a function for this and `worse` would need both rules in its contract.
fn nearer(least: Option<Near>, next: Near) -> Near
    requires least { InNet least }
    requires next { next.node < 64 }
    ensures rank { rank result ≡ lesser_of (rank_of least) (rank next) }
    ensures node { result.node < 64 }
{
    least.map_or(next, |least| least.min(next))
}

impl<'a, M: Map> Distances<'a, M> {
    // From u to v, if there is a path.
    fn between(&self, u: usize, v: usize) -> Option<u32>
        requires from { u < self.now.nodes }
        requires to { v < self.now.nodes }
        ensures { result ≡ table_of self.now.nodes self.now.slots.now u v }
    {
        self.slots[u * self.nodes + v]
    }

    // The link at a place, if it begins a best path from u to v.
    fn tight(&self, u: usize, v: usize, place: usize) -> Option<Link>
        requires measured { Measured (M.meaning self.now.map.now) self.now.nodes self.now.slots.now }
        requires from { u < self.now.nodes }
        requires to { v < self.now.nodes }
        ensures { TightAt (M.meaning self.now.map.now) u v place result }
    {
        let link = held(self.map, place)?;
        if link.tail as usize != u {
            return None;
        }
        let rest = self.between(link.head as usize, v)?;
        if self.between(u, v) == Some(link.weight as u32 + rest) {
            Some(link)
        } else {
            None
        }
    }

    // What the best paths from u to v along the link at a place come to, if it begins one.
    fn way<V: Tariff>(
        &self,
        spread: &[Option<Spread<V>>],
        u: usize,
        v: usize,
        place: usize,
    ) -> Option<Spread<V>>
        requires measured { Measured (M.meaning self.now.map.now) self.now.nodes self.now.slots.now }
        requires space { self.now.nodes * self.now.nodes ≤ length spread.now }
        requires from { u < self.now.nodes }
        requires to { v < self.now.nodes }
        requires heads { HeadsFigured (M.meaning self.now.map.now) (algebra V.good V.joining) self.now.nodes spread.now u v }
        ensures { WayAt (M.meaning self.now.map.now) (algebra V.good V.joining) u v place result }
    {
        let link = self.tight(u, v, place)?;
        let rest = read_slot(spread, link.head as usize * self.nodes + v)?;
        Some(go_on(link, rest))
    }

    // The figures from u to another node v, over the links that begin a best path.
    fn gather<V: Tariff>(
        &self,
        spread: &[Option<Spread<V>>],
        u: usize,
        v: usize,
    ) -> Option<Spread<V>>
        requires measured { Measured (M.meaning self.now.map.now) self.now.nodes self.now.slots.now }
        requires space { self.now.nodes * self.now.nodes ≤ length spread.now }
        requires from { u < self.now.nodes }
        requires to { v < self.now.nodes }
        requires other { u ≢ v }
        requires heads { HeadsFigured (M.meaning self.now.map.now) (algebra V.good V.joining) self.now.nodes spread.now u v }
        ensures { FiguresOf (M.meaning self.now.map.now) (algebra V.good V.joining) u v result }
    {
        let mut found = None;
        // a map is asked for its links by their places' numbers
        for place in 0..self.map.places() {
            if let Some(way) = self.way(spread, u, v, place) {
                found = Some(worse(found, way));
            }
        }
        found
    }

    // The figures from u to v.
    fn figures_between<V: Tariff>(
        &self,
        spread: &[Option<Spread<V>>],
        u: usize,
        v: usize,
    ) -> Option<Spread<V>>
        requires measured { Measured (M.meaning self.now.map.now) self.now.nodes self.now.slots.now }
        requires space { self.now.nodes * self.now.nodes ≤ length spread.now }
        requires from { u < self.now.nodes }
        requires to { v < self.now.nodes }
        requires heads { HeadsFigured (M.meaning self.now.map.now) (algebra V.good V.joining) self.now.nodes spread.now u v }
        ensures { FiguresOf (M.meaning self.now.map.now) (algebra V.good V.joining) u v result }
    {
        if u != v {
            return self.gather(spread, u, v);
        }
        Some(Spread {
            delay: Microseconds(0),
            value: V::neutral(),
        })
    }

    // The distances from each node to v, side by side: in the slice they lie a row apart, and they are gone through once for each node.
    fn read_column(&self, v: usize, column: &mut [Option<u32>])
        requires to { v < self.now.nodes }
        requires long { self.now.nodes ≤ length column.old }
        ensures { ColumnOf self.now.nodes self.now.slots.now v column.new }
    {
        // a node's number gives its slot in both
        for node in 0..self.nodes {
            column[node] = self.between(node, v);
        }
    }

    // The nearest node after the last one to the node that a column is of, and of those as near the first by number.
    fn nearest(&self, column: &[Option<u32>], last: Option<Near>) -> Option<Near>
        requires long { self.now.nodes ≤ length column.now }
        requires last { InNet last }
        ensures least { (v : ℕ) → ColumnOf self.now.nodes self.now.slots.now v column.now → LeastOf (Keyed self.now.nodes self.now.slots.now v (bar_of last)) (rank_of result) }
        ensures node { InNet result }
    {
        let mut least = None;
        // a node's number is a part of what is looked for
        for node in 0..self.nodes {
            if let Some(far) = column[node] {
                let near = Near { far, node };
                if follows(last, near) {
                    least = Some(nearer(least, near));
                }
            }
        }
        least
    }

    // The figures from each node to v, nearest first, so that each link that begins a best path leads to figures that are there.
    fn fill_column<V: Tariff>(
        &self,
        column: &[Option<u32>],
        spread: &mut [Option<Spread<V>>],
        v: usize,
    )
        requires measured { Measured (M.meaning self.now.map.now) self.now.nodes self.now.slots.now }
        requires space { self.now.nodes * self.now.nodes ≤ length spread.old }
        requires to { v < self.now.nodes }
        requires empty { EmptyAt self.now.nodes self.now.slots.now spread.old v }
        requires column { ColumnOf self.now.nodes self.now.slots.now v column.now }
        requires long { self.now.nodes ≤ length column.now }
        ensures done { ColumnFigured (M.meaning self.now.map.now) (algebra V.good V.joining) self.now.nodes spread.new v }
        ensures spared { Spared self.now.nodes v spread.old spread.new }
    {
        let mut last = None;
        while let Some(near) = self.nearest(column, last) {
            let figures = self.figures_between(spread, near.node, v);
            write_slot(spread, near.node * self.nodes + v, figures);
            last = Some(near);
        }
    }

    // The figures of every pair of nodes, in a slice that is empty where no path joins two.
    pub(crate) fn fill_figures<V: Tariff>(&self, spread: &mut [Option<Spread<V>>])
        requires measured { Measured (M.meaning self.now.map.now) self.now.nodes self.now.slots.now }
        requires space { self.now.nodes * self.now.nodes ≤ length spread.old }
        requires empty { AllEmpty self.now.nodes self.now.slots.now spread.old }
        ensures { Figured (M.meaning self.now.map.now) (algebra V.good V.joining) self.now.nodes spread.new }
    {
        let mut column = [None; MOST_NODES];
        // a node's number gives its column
        for v in 0..self.nodes {
            self.read_column(v, &mut column);
            self.fill_column(&column, spread, v);
        }
    }
}
