// Holds the engine to plain enumeration on many small random networks, and to two examples.
#![tactic(auto)]

mod agreement;
mod cases;
mod examples;
mod random;
mod rounds;

use agreement::Space;
use examples::compare_examples;
use random::Random;
use rounds::{Counts, compare_round};
use tariff::{Cost, Scarcity};

const ROUNDS: u32 = 2000;

fn main(rt: HostRuntime) -> anyhow::Result<()> {
    let mut costs: Space<Cost> = Space::new(rt.alloc())?;
    let mut scarcities: Space<Scarcity> = Space::new(rt.alloc())?;
    let examples = compare_examples(&mut costs)?;
    let agreed = examples.iter().filter(|agrees| **agrees).count();
    println!(rt; "examples {agreed} agreed")?;
    let mut random = Random::new();
    let mut counts = Counts::default();
    for _ in 0..ROUNDS {
        compare_round(&rt, &mut random, &mut costs, &mut counts)?;
        compare_round(&rt, &mut random, &mut scarcities, &mut counts)?;
    }
    println!(rt; "{counts}")?;
    Ok(())
}
