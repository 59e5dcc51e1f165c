// What a code does at a node, in grains.
ghost use Rattle.std.specs.Prelude.{◌<◌};
ghost use Rattle.segments.specs.Algebra.{algebra};
ghost use Rattle.segments.specs.Spreads.{Routed};
ghost use Rattle.engine.specs.Hops.{HopOf};

use crate::search::Search;
use netmap::Map;
use segments::Leg;
use segments::units::round_up;
use tariff::Tariff;

// Codes from here on are illegal everywhere.
pub(crate) const CODES: u16 = 512;

// What an entry does, and its delay in grains.
#[derive(Clone, Copy)]
pub(crate) struct Hop<V> {
    pub leg: Leg<V>,
    pub grains: usize,
}

impl<M: Map, V: Tariff> Search<'_, M, V> {
    // What a code does at a node, if it is legal there.
    pub(crate) fn hop(&self, v: usize, code: u16) -> Option<Hop<V>>
        requires routed { Routed (M.meaning self.now.routes.map.now) (algebra V.good V.joining) self.now.routes.nodes self.now.routes.spread.now }
        requires node { v < self.now.routes.nodes }
        ensures { HopOf (M.meaning self.now.routes.map.now) (algebra V.good V.joining) self.now.grain.length.0 v code result }
    {
        let leg = self.routes.entry(v, code)?;
        let grains = round_up(leg.delay, self.grain).0 as usize;
        Some(Hop { leg, grains })
    }
}
