// Tariffs: what a link is worth, how values join along a path, and which of two is better.
#![tactic(auto)]

ghost use Rattle.std.specs.Prelude.{◌≡◌, Bool};
ghost use Rattle.tariff.specs.Joinings.{Joining, Joins};
ghost use Rattle.tariff.specs.Rankings.{Ranks};

use netmap::Link;

pub mod cost;
pub mod scarcity;

pub use cost::Cost;
pub use scarcity::Scarcity;

// Values that can be ranked: of any two, one is as good as the other.
pub trait Ranking: Copy {
    // Is the first value as good as the second?
    ghost good: { Self → Self → Bool };

    fn as_good(self, other: Self) -> bool
        ensures { result ≡ good self other };

    ghost ranks: { Ranks good };
}

// Ranked values that a link has and that join along a path.
pub trait Tariff: Ranking {
    ghost joining: { Joining Self };

    fn neutral() -> Self
        ensures { result ≡ joining.neutral };

    fn of_link(link: Link) -> Self
        ensures { result ≡ joining.of_link link };

    fn join(self, next: Self) -> Self
        ensures { result ≡ joining.join self next };

    ghost joins: { Joins Self.Ranking.good joining };
}

#[cfg(test)]
mod tests;
