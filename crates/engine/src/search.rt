// What the search for an order reads.
ghost use Rattle.std.specs.Prelude.{◌≡◌, ◌<◌, ◌≤◌};
ghost use Rattle.engine.specs.Cells.{slot};

use segments::{Grain, Routes};

// The routes of a map, the length of a grain, and the largest number of grains.
// That the routes are the map's is a clause of each call, as for `Routes`; so are the bounds of a node and of a number of grains, as in `segments`.
#[derive(Drop)]
pub(crate) struct Search<'a, M, V> {
    pub routes: Routes<'a, M, V>,
    pub grain: Grain,
    pub top: usize,
    ghost few: { routes.nodes ≤ 64 },
    ghost short: { top ≤ 1000 },
}

impl<M, V> Search<'_, M, V> {
    // Where the cell of l entries at the node v with d grains lies in the table: rows of 0 to top grains.
    pub(crate) fn place(&self, l: usize, v: usize, d: usize) -> usize
        requires labels { l ≤ 10 }
        requires node { v < self.now.routes.nodes }
        requires grains { d ≤ self.now.top }
        ensures { result ≡ slot self.now.routes.nodes self.now.top l v d }
    {
        (l * self.routes.nodes + v) * (self.top + 1) + d
    }
}
