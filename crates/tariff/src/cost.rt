// The cost tariff: a link costs its IGP weight, joined costs add up, and the smaller is better.
ghost use Rattle.std.specs.Prelude.{◌≤◌};

pub mod calls;

// A sum of weights, which stops at the largest number of 32 bits.
#[derive(Clone, Copy, PartialEq, Eq, Debug)]
pub struct Cost {
    pub weight: u32,
    ghost fits: { weight ≤ 4294967295 },
}
