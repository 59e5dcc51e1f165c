// What makes costs a tariff.
ghost use Rattle.tariff.specs.Costs.{cheaper, costs};
ghost use Rattle.tariff.specs.CostLaws.{cost_ranks, cost_joins};

use super::Cost;
use crate::{Ranking, Tariff};
use netmap::Link;

impl Ranking for Cost {
    ghost good = { cheaper };

    ghost ranks = { cost_ranks };

    fn as_good(self, other: Cost) -> bool {
        self.weight <= other.weight
    }
}

impl Tariff for Cost {
    ghost joining = { costs };

    ghost joins = { cost_joins };

    fn neutral() -> Cost {
        Cost { weight: 0 }
    }

    fn of_link(link: Link) -> Cost {
        Cost {
            weight: link.weight as u32,
        }
    }

    fn join(self, next: Cost) -> Cost {
        Cost {
            weight: self.weight.saturating_add(next.weight),
        }
    }
}
