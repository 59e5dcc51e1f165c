// What the contracts of the calls leave no choice in.
ghost use Rattle.segments.specs.Algebra.{algebra};
ghost use Rattle.engine.specs.Theorems.{QuotesDetermined, FrontsDetermined};

pub use keeper::theorems::{front_is_unique, keeper_holds_front};
use tariff::Tariff;

// A quote has one reply and leaves one content of the list space.
pub fn quotes_are_determined<V: Tariff>()
    ensures { QuotesDetermined (algebra V.good V.joining) }
{}

// A front has one reply and leaves one content of its slots.
pub fn fronts_are_determined<V: Tariff>()
    ensures { FrontsDetermined (algebra V.good V.joining) }
{}
