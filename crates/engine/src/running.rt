// A run of calls on a map, each of which finds what the calls before it left.
ghost use Rattle.std.specs.Prelude.{◌≡◌};
ghost use Rattle.segments.specs.Algebra.{algebra};
ghost use Rattle.engine.specs.Calls.{room_in, SameSlices};
ghost use Rattle.engine.specs.Runs.{Answers, Runs, after};

use crate::pareto::front;
use crate::quoting::quote;
use crate::workspace::Workspace;
use netmap::{Link, Map};
use questions::Denial;
use segments::{Figures, Order};
use tariff::Tariff;

#[derive(Clone, Copy)]
pub enum Call {
    Put(usize, Link),
    Remove(usize),
    Quote(Order),
    Front(Order),
}

#[derive(Clone, Copy)]
pub enum Reply<V> {
    Changed(Result<(), Denial>),
    Quoted(Result<Figures<V>, Denial>),
    Front(Result<usize, Denial>),
}

// A call with its list space and its front slots, and its reply once it is made.
#[derive(Drop)]
pub struct Step<V> {
    pub call: Call,
    pub list: Vec<u16>,
    pub slots: Vec<Option<V>>,
    pub reply: Option<Reply<V>>,
}

// Makes one call on the map that it finds.
fn perform<M: Map, V: Tariff>(map: &mut M, step: &mut Step<V>, work: &mut Workspace<'_, V>)
    ensures kept { step.new.call ≡ step.old.call }
    ensures answers { Answers (algebra V.good V.joining) (room_in work.old) (M.meaning map.old) step.old.call step.old step.new }
    ensures same { SameSlices work.old work.new }
    ensures leaves { M.meaning map.new ≡ after (M.meaning map.old) step.old.call }
{
    match step.call {
        Call::Put(place, link) => {
            step.reply = Some(Reply::Changed(map.put(place, link)));
        }
        Call::Remove(place) => {
            step.reply = Some(Reply::Changed(map.remove(place)));
        }
        Call::Quote(order) => {
            step.reply = Some(Reply::Quoted(quote(map, order, work, step.list.as_mut_slice())));
        }
        Call::Front(order) => {
            step.reply = Some(Reply::Front(front(map, order, work, step.slots.as_mut_slice())));
        }
    }
}

// Makes the calls in turn, each on the map that it finds.
pub fn run<M: Map, V: Tariff>(map: &mut M, steps: &mut [Step<V>], work: &mut Workspace<'_, V>)
    ensures runs { Runs (algebra V.good V.joining) (room_in work.old) (M.meaning map.old) steps.old steps.new (M.meaning map.new) }
    ensures same { SameSlices work.old work.new }
{
    for step in steps.iter_mut() {
        perform(map, step, work);
    }
}
