// The scarcity tariff: a link is as scarce as its figure, joined values as the scarcer, and the smaller is better.
ghost use Rattle.tariff.specs.Scarcities.{less_scarce, scarcities};
ghost use Rattle.tariff.specs.ScarcityLaws.{scarcity_ranks, scarcity_joins};

use crate::{Ranking, Tariff};
use netmap::Link;

#[derive(Clone, Copy, PartialEq, Eq, Debug)]
pub struct Scarcity {
    pub figure: u32,
}

impl Ranking for Scarcity {
    ghost good = { less_scarce };

    ghost ranks = { scarcity_ranks };

    fn as_good(self, other: Scarcity) -> bool {
        self.figure <= other.figure
    }
}

impl Tariff for Scarcity {
    ghost joining = { scarcities };

    ghost joins = { scarcity_joins };

    fn neutral() -> Scarcity {
        Scarcity { figure: 0 }
    }

    fn of_link(link: Link) -> Scarcity {
        Scarcity {
            figure: link.figure,
        }
    }

    fn join(self, next: Scarcity) -> Scarcity {
        Scarcity {
            figure: self.figure.max(next.figure),
        }
    }
}
