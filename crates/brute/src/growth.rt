// Growth round by round: what is new in one round is what the next one builds on.
use std::alloc::{AllocError, Global};
use std::ops::Range;

// The first item, and all that at most so many rounds make of it, in the order of the rounds.
// The step adds what it makes of an item.
pub(crate) fn grown<T, F>(
    heap: Global,
    first: T,
    rounds: u16,
    step: F,
) -> Result<Vec<T>, AllocError>
where
    T: Copy,
    F: Fn(T, &mut Vec<T>) -> Result<(), AllocError>,
    requires { F.IsAlwaysCallable step }
{
    let mut all = Vec::new(heap);
    all.push(first)?;
    let mut newest = 0;
    for _ in 0..rounds {
        let end = all.len();
        grow(&mut all, newest..end, &step)?;
        newest = end;
    }
    Ok(all)
}

// Adds what the step makes of the items at these places.
// By place: what is read grows meanwhile, so that no round has to be moved.
fn grow<T, F>(all: &mut Vec<T>, places: Range<usize>, step: &F) -> Result<(), AllocError>
where
    T: Copy,
    F: Fn(T, &mut Vec<T>) -> Result<(), AllocError>,
    requires { F.IsAlwaysCallable step.now }
{
    for place in places {
        if let Some(item) = all.get(place).copied() {
            step(item, all)?;
        }
    }
    Ok(())
}
