// The choice of the cell at the source from which the list is rebuilt.
ghost use Rattle.std.specs.Prelude.{◌≡◌, ◌+◌, ◌≤◌};
ghost use Rattle.segments.specs.Algebra.{algebra};
ghost use Rattle.engine.specs.Cells.{cells_at};
ghost use Rattle.engine.specs.Chosen.{LeadOf, Passed, Whole, lead_of};

use crate::cells::SourceCells;
use netmap::Map;
use tariff::Tariff;

// A cell at the source.
#[derive(Clone, Copy)]
pub(crate) struct Choice<V> {
    pub value: V,
    pub grains: usize,
    pub entries: usize,
}

// The better of two cells; the first stays at a tie, so that the fewest grains and entries win: no other choice here has that rule.
fn lead<V: Tariff>(best: Option<Choice<V>>, next: Choice<V>) -> Choice<V>
    ensures { result ≡ lead_of (algebra V.good V.joining) best next }
{
    match best {
        Some(best) if best.value.as_good(next.value) => best,
        _ => next,
    }
}

impl<M: Map, V: Tariff> SourceCells<'_, '_, M, V> {
    // Goes on with the cells of d grains at the source.
    fn choose_at(&self, d: usize, best: Option<Choice<V>>) -> Option<Choice<V>>
        requires grains { d ≤ self.now.search.top }
        requires lead { LeadOf (algebra V.good V.joining) (cells_at self.now.search.routes.nodes self.now.search.top self.now.table.now self.now.source) (Passed self.now.limit d 0) best }
        ensures { LeadOf (algebra V.good V.joining) (cells_at self.now.search.routes.nodes self.now.search.top self.now.table.now self.now.source) (Passed self.now.limit (d + 1) 0) result }
    {
        let mut first = best;
        // the number of entries is a part of the choice
        for l in 0..self.limit + 1 {
            if let Some(value) = self.read(l, self.source, d) {
                first = Some(lead(
                    first,
                    Choice {
                        value,
                        grains: d,
                        entries: l,
                    },
                ));
            }
        }
        first
    }

    // The cell at the source of the best value, then of the fewest grains, then of the fewest entries.
    // `gather` goes through the same cells: a walk for both would take a closure with either's invariant as its clauses.
    pub(crate) fn choose(&self) -> Option<Choice<V>>
        ensures { LeadOf (algebra V.good V.joining) (cells_at self.now.search.routes.nodes self.now.search.top self.now.table.now self.now.source) (Whole self.now.limit self.now.search.top) result }
    {
        // a `fold` would need the loop's invariant as clauses of its closure, and be longer
        let mut best = None;
        for d in 0..self.search.top + 1 {
            best = self.choose_at(d, best);
        }
        best
    }
}
