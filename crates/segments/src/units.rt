// Counts in units of their own.
ghost use Rattle.std.specs.Prelude.{◌≡◌, ◌≤◌, ◌&&◌, is_some, IfSome, nat_le};
ghost use Rattle.segments.specs.Segments.{grains_of};

use netmap::Microseconds;

// A delay in grains, the steps to which the delay of each entry is rounded up.
#[derive(Clone, Copy, PartialEq, Eq, PartialOrd, Ord, Debug)]
pub struct Grains(pub u32);

// Entries of a segment list, each of which is a label of the packet.
#[derive(Clone, Copy, PartialEq, Eq, PartialOrd, Ord, Debug)]
pub struct Labels(pub u16);

// The length of a grain, which is at least a microsecond.
#[derive(Clone, Copy, PartialEq, Eq, Debug)]
pub struct Grain {
    pub length: Microseconds,
    ghost some: { 1 ≤ length.0 },
}

impl Grain {
    // The longest that may be asked for.
    pub const LONGEST: Microseconds = Microseconds(10_000);

    // Of 1 to 10,000 microseconds, or none.
    pub fn new(length: Microseconds) -> Option<Grain>
        ensures range { is_some result ≡ (nat_le 1 length.0 && nat_le length.0 10000) }
        ensures same { IfSome result (λ grain. grain.length ≡ length) }
    {
        if length < Microseconds(1) || length > Self::LONGEST {
            return None;
        }
        Some(Grain { length })
    }
}

// A delay in grains of the given length. Public for the search above this crate.
pub fn round_up(delay: Microseconds, grain: Grain) -> Grains
    ensures { result.0 ≡ grains_of grain.length.0 delay.0 }
{
    Grains(delay.0.div_ceil(grain.length.0))
}
