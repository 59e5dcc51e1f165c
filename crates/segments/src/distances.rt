// Distances of all pairs of nodes, by rounds of relaxation (Bellman and Ford).
// A round reads the first working slice and writes the second, which keeps each new distance where a delay will stand: no third is lent.
// The lengths of both are clauses of each function, since a slice in the field of a lent struct cannot be lent again to be read.
// Numbers are widened by `as`, as in `ecmp.rt`.
ghost use Rattle.std.specs.Prelude.{◌≡◌, ◌*◌, ◌<◌, ◌≤◌, true, false, length, Some, MatchOption};
ghost use Rattle.segments.specs.Distances.{AllKnown, Known, Same, Measured, delay_in, delays};
ghost use Rattle.segments.specs.Relaxations.{Round, Started, Swept, Rounds, nearer};

use crate::figures::{Spread, read_slot, write_slot};
use netmap::{Link, Map, Microseconds, held};
use tariff::Tariff;

// Before the first round: 0 from each node to itself, and no other path.
fn start_distances(n: usize, dist: &mut [Option<u32>])
    requires nodes { n ≤ 64 }
    requires sized { n * n ≤ length dist.old }
    ensures { Started n dist.new }
{
    dist[..n * n].fill(None);
    // a node's number gives its slot
    for u in 0..n {
        dist[u * n + u] = Some(0);
    }
}

// A distance, kept where a delay will stand.
fn keep<V: Tariff>(distance: Option<u32>) -> Option<Spread<V>>
    ensures { delay_in result ≡ distance }
{
    distance.map(|distance| Spread {
        delay: Microseconds(distance),
        value: V::neutral(),
    })
}

// The distance that a slot of the second working slice keeps.
fn kept<V: Tariff>(slot: Option<Spread<V>>) -> Option<u32>
    ensures { result ≡ delay_in slot }
{
    slot.map(|spread| spread.delay.0)
}

// The first distances into the second slice, where the rounds better them.
fn carry_over<V: Tariff>(cells: usize, dist: &[Option<u32>], spread: &mut [Option<Spread<V>>])
    requires sized { cells ≤ length dist.now }
    requires space { cells ≤ length spread.old }
    ensures { Same cells dist.now (delays spread.new) }
{
    // by index, since nothing is known of what a zip of `iter_mut` wrote
    for (i, distance) in dist[..cells].iter().enumerate() {
        spread[i] = keep(*distance);
    }
}

// A weight with the distance behind it, where that is less than what a slot keeps, or where it keeps none.
fn shorter<V: Tariff>(slot: Option<Spread<V>>, weight: u16, rest: Option<u32>) -> Option<u32>
    requires { Known rest }
    ensures { MatchOption result (nearer (delay_in slot) weight rest ≡ delay_in slot) (λ sum. nearer (delay_in slot) weight rest ≡ Some sum) }
{
    let sum = weight as u32 + rest?;
    if slot.is_some_and(|spread| spread.delay.0 <= sum) {
        return None;
    }
    Some(sum)
}

// Tries a link with the distance from its head, to each node.
fn sweep<V: Tariff>(n: usize, dist: &[Option<u32>], spread: &mut [Option<Spread<V>>], link: Link)
    requires nodes { n ≤ 64 }
    requires tail { link.tail < n }
    requires head { link.head < n }
    requires sized { n * n ≤ length dist.now }
    requires space { n * n ≤ length spread.old }
    requires known { AllKnown n dist.now }
    ensures { Swept n link dist.now (delays spread.old) (delays spread.new) }
{
    // a node's number gives its slot in both rows
    for v in 0..n {
        let slot = link.tail as usize * n + v;
        let rest = dist[link.head as usize * n + v];
        // most slots stay as they are, and are not written
        if let Some(sum) = shorter(read_slot(spread, slot), link.weight, rest) {
            write_slot(spread, slot, keep(Some(sum)));
        }
    }
}

// One round: from the distances so far, which both slices hold, those over one link more into the second.
fn round<M: Map, V: Tariff>(
    map: &M,
    n: usize,
    dist: &[Option<u32>],
    spread: &mut [Option<Spread<V>>],
)
    requires nodes { n ≡ (M.meaning map.now).nodes }
    requires sized { n * n ≤ length dist.now }
    requires space { n * n ≤ length spread.old }
    requires known { AllKnown n dist.now }
    requires carried { Same (n * n) dist.now (delays spread.old) }
    ensures { Round (M.meaning map.now) n dist.now (delays spread.new) }
{
    // a map is asked for its links by their places' numbers
    for place in 0..map.places() {
        if let Some(link) = held(map, place) {
            sweep(n, dist, spread, link);
        }
    }
}

// Are the distances those that the other slice keeps?
fn is_settled<V: Tariff>(dist: &[Option<u32>], spread: &[Option<Spread<V>>]) -> bool
    requires { length dist.now ≡ length spread.now }
    ensures yes { result ≡ true → Same (length dist.now) dist.now (delays spread.now) }
    ensures no { result ≡ false → Same (length dist.now) dist.now (delays spread.now) → ⊥ }
{
    // `all` would have the same to prove, of its closure
    for (distance, slot) in dist.iter().zip(spread) {
        if *distance != kept(*slot) {
            return false;
        }
    }
    true
}

// Takes the distances of a round over.
fn take_over<V: Tariff>(cells: usize, dist: &mut [Option<u32>], spread: &[Option<Spread<V>>])
    requires sized { cells ≤ length dist.old }
    requires space { cells ≤ length spread.now }
    ensures { Same cells dist.new (delays spread.now) }
{
    // by index, as in `carry_over`, which goes the other way
    for (i, slot) in spread[..cells].iter().enumerate() {
        dist[i] = kept(*slot);
    }
}

// The distances of all pairs of nodes into both slices, and how many rounds found them, which no call reports yet.
// Not inlined, so that its loops share registers with no others: measured, a tenth less time of a walk.
#[inline(never)]
pub(crate) fn find_distances<M: Map, V: Tariff>(
    map: &M,
    n: usize,
    dist: &mut [Option<u32>],
    spread: &mut [Option<Spread<V>>],
) -> usize
    requires nodes { n ≡ (M.meaning map.now).nodes }
    requires sized { n * n ≤ length dist.old }
    requires space { n * n ≤ length spread.old }
    ensures measured { Measured (M.meaning map.now) n dist.new }
    ensures kept { Same (n * n) dist.new (delays spread.new) }
    ensures rounds { Rounds (M.meaning map.now) result }
{
    start_distances(n, dist);
    carry_over(n * n, dist, spread);
    // the number of the round is a part of the answer
    for k in 0..n {
        round(map, n, dist, spread);
        if is_settled(&dist[..n * n], &spread[..n * n]) {
            return k + 1;
        }
        take_over(n * n, dist, spread);
    }
    unreachable()
}
