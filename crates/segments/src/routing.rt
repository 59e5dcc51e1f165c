// Routing: the distances of all pairs of nodes, and then the figures of their node segments.
ghost use Rattle.std.specs.Prelude.{◌≡◌, ◌*◌, ◌≤◌, length};
ghost use Rattle.segments.specs.Algebra.{algebra};
ghost use Rattle.segments.specs.Distances.{Measured};
ghost use Rattle.segments.specs.Spreads.{Routed};

use crate::distances::find_distances;
use crate::ecmp::Distances;
use crate::figures::Spread;
use netmap::Map;
use tariff::Tariff;

// A map of so many nodes, and the figures of each pair of them.
// That they are the map's is a clause of each call: its witnesses are paths, and an invariant holds facts with one proof only.
#[derive_where(Clone, Copy)]
pub struct Routes<'a, M, V> {
    pub map: &'a M,
    pub nodes: usize,
    pub spread: &'a [Option<Spread<V>>],
}

// Fills both working slices. Public for the search above this crate.
pub fn route<M: Map, V: Tariff>(
    map: &M,
    nodes: usize,
    dist: &mut [Option<u32>],
    spread: &mut [Option<Spread<V>>],
)
    requires nodes { nodes ≡ (M.meaning map.now).nodes }
    requires sized { nodes * nodes ≤ length dist.old }
    requires space { nodes * nodes ≤ length spread.old }
    ensures distances { Measured (M.meaning map.now) nodes dist.new }
    ensures figures { Routed (M.meaning map.now) (algebra V.good V.joining) nodes spread.new }
{
    find_distances(map, nodes, dist, spread);
    let distances = Distances {
        map,
        nodes,
        slots: dist,
    };
    distances.fill_figures(spread);
}
