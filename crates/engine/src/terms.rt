// An order once its questions are answered yes.
ghost use Rattle.std.specs.Prelude.{◌≡◌};
ghost use Rattle.engine.specs.Fronts.{most_grains_of};

use segments::{Grain, Order};

// An order with its grain, and with the largest number of grains within its bound.
#[derive(Clone, Copy)]
pub(crate) struct Terms {
    pub order: Order,
    pub grain: Grain,
    pub top: usize,
    ghost grain_is: { grain.length ≡ order.grain },
    ghost top_is: { top ≡ most_grains_of order },
}
