// Examples of quotes, fronts and walks, as the definitions settle them.
#![tactic(auto)]

ghost use Rattle.examples.specs.Examples.{Settled};

pub fn examples_are_settled()
    ensures { Settled }
{}
