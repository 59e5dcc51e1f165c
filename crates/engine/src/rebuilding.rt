// The list rebuilt from the table, entry by entry.
ghost use Rattle.std.specs.Prelude.{◌≡◌, ℕ, ◌<◌, ◌≤◌, length, Some};
ghost use Rattle.segments.specs.Algebra.{algebra};
ghost use Rattle.segments.specs.Spreads.{Routed};
ghost use Rattle.engine.specs.Cells.{best_of, FilledTo};
ghost use Rattle.engine.specs.Rebuilds.{Attains, TriedCode, FoundAt, Written};

use crate::cells::SourceCells;
use crate::choosing::Choice;
use crate::hops::{CODES, Hop};
use netmap::Map;
use segments::Leg;
use tariff::Tariff;

// A list so far: its value and the node where it ends, and what is left of grains and of entries after the next.
#[derive(Clone, Copy)]
struct Prefix<V> {
    pub value: V,
    pub end: usize,
    pub grains: usize,
    pub left: usize,
}

// A code with what it does, and the grains that it leaves.
#[derive(Clone, Copy)]
pub(crate) struct Found<V> {
    pub code: u16,
    pub leg: Leg<V>,
    pub rest: usize,
}

impl<M: Map, V: Tariff> SourceCells<'_, '_, M, V> {
    // Whether a code still attains the total after a prefix.
    fn try_code(&self, prefix: Prefix<V>, total: V, code: u16) -> Option<Found<V>>
        requires routed { Routed (M.meaning self.now.search.routes.map.now) (algebra V.good V.joining) self.now.search.routes.nodes self.now.search.routes.spread.now }
        requires labels { prefix.left ≤ self.now.limit }
        requires node { prefix.end < self.now.search.routes.nodes }
        requires grains { prefix.grains ≤ self.now.search.top }
        ensures { TriedCode (M.meaning self.now.search.routes.map.now) (algebra V.good V.joining) self.now.search.grain.length.0 total (best_of self.now.search.routes.nodes self.now.search.top self.now.table.now prefix.left) prefix.value prefix.grains prefix.end code result }
    {
        let Hop { leg, grains } = self.search.hop(prefix.end, code)?;
        let rest = prefix.grains.checked_sub(grains)?;
        let suffix = self.read(prefix.left, leg.to as usize, rest)?;
        let whole = prefix.value.join(leg.value).join(suffix);
        if whole.as_good(total) && total.as_good(whole) {
            Some(Found { code, leg, rest })
        } else {
            None
        }
    }

    // The smallest code that still attains the total.
    fn seek(&self, prefix: Prefix<V>, total: V) -> Found<V>
        requires routed { Routed (M.meaning self.now.search.routes.map.now) (algebra V.good V.joining) self.now.search.routes.nodes self.now.search.routes.spread.now }
        requires labels { prefix.left ≤ self.now.limit }
        requires node { prefix.end < self.now.search.routes.nodes }
        requires grains { prefix.grains ≤ self.now.search.top }
        requires some { (c : ℕ) × Attains (M.meaning self.now.search.routes.map.now) (algebra V.good V.joining) self.now.search.grain.length.0 total (best_of self.now.search.routes.nodes self.now.search.top self.now.table.now prefix.left) prefix.value prefix.grains prefix.end c }
        ensures { FoundAt (M.meaning self.now.search.routes.map.now) (algebra V.good V.joining) self.now.search.grain.length.0 total (best_of self.now.search.routes.nodes self.now.search.top self.now.table.now prefix.left) prefix.value prefix.grains prefix.end result }
    {
        match (0..CODES).find_map(|code| self.try_code(prefix, total, code)) {
            Some(found) => found,
            None => unreachable(),
        }
    }

    // Writes the list of the chosen cell, at each entry the smallest code that attains its value, and gives its delay.
    pub(crate) fn rebuild(&self, choice: Choice<V>, list: &mut [u16]) -> u32
        requires routed { Routed (M.meaning self.now.search.routes.map.now) (algebra V.good V.joining) self.now.search.routes.nodes self.now.search.routes.spread.now }
        requires labels { choice.entries ≤ self.now.limit }
        requires few { choice.grains ≤ self.now.search.top }
        requires space { choice.entries ≤ length list.old }
        requires filled { (target : ℕ) × FilledTo (M.meaning self.now.search.routes.map.now) (algebra V.good V.joining) self.now.search.grain.length.0 target self.now.search.routes.nodes self.now.search.top choice.entries self.now.table.now }
        requires cell { best_of self.now.search.routes.nodes self.now.search.top self.now.table.now choice.entries choice.grains self.now.source ≡ Some choice.value }
        ensures { Written (M.meaning self.now.search.routes.map.now) (algebra V.good V.joining) self.now.search.grain.length.0 choice.value (best_of self.now.search.routes.nodes self.now.search.top self.now.table.now) choice.grains self.now.source choice.entries result list.old list.new }
    {
        let mut v = self.source;
        let mut d = choice.grains;
        let mut prefix = V::neutral();
        let mut delay: u32 = 0;
        // an entry's place in the list tells how many are left; a prefix is made anew, since a list without entries has none
        for i in 0..choice.entries {
            let rest = Prefix {
                value: prefix,
                end: v,
                grains: d,
                left: choice.entries - 1 - i,
            };
            let found = self.seek(rest, choice.value);
            list[i] = found.code;
            v = found.leg.to as usize;
            d = found.rest;
            prefix = prefix.join(found.leg.value);
            delay += found.leg.delay.0;
        }
        delay
    }
}
