// The front keeper: a slot for each number of grains, which hold the Pareto front of the pairs offered.
#![tactic(auto)]

ghost use Rattle.std.specs.Prelude.{◌≡◌, ℕ, ◌<◌, true, false, [], length, None, slice_index_or};
ghost use Rattle.keeper.specs.Fronts.{InSlot, Front};
ghost use Rattle.keeper.specs.Keepers.{Accepted, OfferCall, Beaten, Cleared};

use questions::{Denial, Layer, Question};
use segments::Grains;
use tariff::Ranking;

pub mod theorems;

// Opens the keeper: no slot holds a pair.
pub fn empty_slots<V: Ranking>(slots: &mut [Option<V>])
    ensures empty { (d : ℕ) → slice_index_or slots.new d None ≡ None }
    ensures front { Front V.good (Accepted []) slots.new }
{
    slots.fill(None);
}

// Is a slot of at most d grains as good as the value?
fn beaten<V: Ranking>(slots: &[Option<V>], d: usize, value: V) -> bool
    requires { d < length slots.now }
    ensures yes { result ≡ true → Beaten V.good (InSlot slots.now) d value }
    ensures none { result ≡ false → Beaten V.good (InSlot slots.now) d value → ⊥ }
{
    slots[..=d]
        .iter()
        .any(|slot| slot.is_some_and(|held| held.as_good(value)))
}

// Empties each slot whose value is no better.
fn clear<V: Ranking>(slots: &mut [Option<V>], value: V)
    ensures { Cleared V.good value slots.old slots.new }
{
    for slot in slots.iter_mut() {
        // most slots stay as they are, and are not written
        if slot.is_some_and(|held| value.as_good(held)) {
            *slot = None;
        }
    }
}

// Takes a pair into the front: it goes in unless a pair held is as good in both, and those that it beats go.
pub fn offer<V: Ranking>(slots: &mut [Option<V>], grains: Grains, value: V) -> Result<(), Denial>
    ensures { OfferCall V.good grains.0 value slots.old slots.new result }
{
    let d = grains.0 as usize;
    if d >= slots.len() {
        return Err(Denial::new(Question::KeeperSlot, Layer::Order, 0));
    }
    if beaten(slots, d, value) {
        return Ok(());
    }
    slots[d] = Some(value);
    clear(&mut slots[d + 1..], value);
    Ok(())
}
