// What segments and segment lists come to: values and delays.
ghost use Rattle.std.specs.Prelude.{◌≡◌, ◌<◌, length, None, slice_index_or, slice_set};

use crate::units::{Grains, Labels};
use netmap::Microseconds;
use tariff::Tariff;

// What an entry does at a node where it is legal: the node that it leads to, its delay and its value.
#[derive(Clone, Copy, PartialEq, Eq, Debug)]
pub struct Leg<V> {
    pub to: u8,
    pub delay: Microseconds,
    pub value: V,
}

// What traffic to a node may meet: over all best paths, the largest delay and the worst value.
#[derive(Clone, Copy, PartialEq, Eq, Debug)]
pub struct Spread<V> {
    pub delay: Microseconds,
    pub value: V,
}

// The figures of a segment list: its value, its delay in grains and in microseconds, and its labels.
#[derive(Clone, Copy, PartialEq, Eq, Debug)]
pub struct Figures<V> {
    pub value: V,
    pub grains: Grains,
    pub delay: Microseconds,
    pub labels: Labels,
}

// Where a walked list ends, and its figures.
#[derive(Clone, Copy, PartialEq, Eq, Debug)]
pub struct Walk<V> {
    pub end: u8,
    pub figures: Figures<V>,
}

// Reads a slot of the second working slice.
pub(crate) fn read_slot<V: Tariff>(spread: &[Option<Spread<V>>], slot: usize) -> Option<Spread<V>>
    requires { slot < length spread.now }
    ensures { result ≡ slice_index_or spread.now slot None }
{
    spread[slot]
}

// Writes a slot of the second working slice.
pub(crate) fn write_slot<V: Tariff>(
    spread: &mut [Option<Spread<V>>],
    slot: usize,
    figures: Option<Spread<V>>,
)
    requires { slot < length spread.old }
    ensures { spread.new ≡ slice_set spread.old slot figures }
{
    spread[slot] = figures;
}
