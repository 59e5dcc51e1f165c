// What the entry of a segment list does at a node.
// Numbers are widened by `as`, as in `ecmp.rt`.
ghost use Rattle.std.specs.Prelude.{◌≡◌, ◌<◌};
ghost use Rattle.segments.specs.Algebra.{algebra};
ghost use Rattle.segments.specs.Entries.{Entry, Leaves, LinkLeg, node_leg};
ghost use Rattle.segments.specs.Spreads.{Routed};

use crate::figures::{Leg, Spread, read_slot};
use crate::routing::Routes;
use netmap::{Map, held};
use tariff::Tariff;

// To a node, along all best paths, if there is one.
fn node_leg<V: Tariff>(to: u8, figures: Option<Spread<V>>) -> Option<Leg<V>>
    ensures { result ≡ node_leg to figures }
{
    figures.map(|figures| Leg {
        to,
        delay: figures.delay,
        value: figures.value,
    })
}

// Does the place hold a link that begins at u?
fn leaves<M: Map>(map: &M, place: usize, u: usize) -> bool
    ensures { Leaves (M.meaning map.now) place u result }
{
    held(map, place).is_some_and(|link| link.tail as usize == u)
}

// Along the link at a place, if there is one.
fn link_leg<M: Map, V: Tariff>(map: &M, place: usize) -> Option<Leg<V>>
    ensures { LinkLeg (M.meaning map.now) (algebra V.good V.joining) place result }
{
    let link = held(map, place)?;
    Some(Leg {
        to: link.head,
        delay: link.delay,
        value: V::of_link(link),
    })
}

impl<'a, M: Map, V: Tariff> Routes<'a, M, V> {
    // What a code does at u, if it is legal there: 0 to 63 name a node, 256 to 511 the link at a place.
    pub fn entry(&self, u: usize, code: u16) -> Option<Leg<V>>
        requires routed { Routed (M.meaning self.now.map.now) (algebra V.good V.joining) self.now.nodes self.now.spread.now }
        requires from { u < self.now.nodes }
        ensures { Entry (M.meaning self.now.map.now) (algebra V.good V.joining) u code result }
    {
        let index = code as usize;
        match code {
            0..=63 if index < self.nodes && index != u => {
                node_leg(code as u8, read_slot(self.spread, u * self.nodes + index))
            }
            256..=511 if leaves(self.map, index - 256, u) => link_leg(self.map, index - 256),
            _ => None,
        }
    }
}
