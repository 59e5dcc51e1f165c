// What the contracts of the keeper leave no choice in.
ghost use Rattle.keeper.specs.Theorems.{KeeperHoldsFront, FrontUnique};

use tariff::Ranking;

// After any offers to empty slots they hold the front of the pairs that have a slot.
pub fn keeper_holds_front<V: Ranking>()
    ensures { KeeperHoldsFront V.good }
{}

// As many slots hold one front of the accepted pairs at most.
pub fn front_is_unique<V: Ranking>()
    ensures { FrontUnique V.good }
{}
