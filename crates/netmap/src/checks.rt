// The questions that several calls share, asked in their order.
ghost use Rattle.std.specs.Prelude.{◌≡◌};
ghost use Rattle.questions.specs.Asking.{first_no, reply};
ghost use Rattle.netmap.specs.Changes.{link_questions, held_questions};

use crate::link::{Link, Microseconds};
use questions::{Denial, Layer, Question};

const MAX_DELAY: Microseconds = Microseconds(100_000);

const MAX_FIGURE: u32 = 1_000_000;

pub(crate) fn check_link(nodes: usize, link: Link, place: usize) -> Result<(), Denial>
    ensures { result ≡ reply (first_no (link_questions nodes link place)) tt }
{
    if usize::from(link.tail) >= nodes || usize::from(link.head) >= nodes {
        return Err(Denial::new(Question::EndsExist, Layer::Map, place));
    }
    if link.tail == link.head {
        return Err(Denial::new(Question::EndsDiffer, Layer::Map, place));
    }
    if link.weight == 0 {
        return Err(Denial::new(Question::WeightPositive, Layer::Map, place));
    }
    if link.delay > MAX_DELAY {
        return Err(Denial::new(Question::DelayLimit, Layer::Map, place));
    }
    if link.figure > MAX_FIGURE {
        return Err(Denial::new(Question::FigureLimit, Layer::Map, place));
    }
    Ok(())
}

pub(crate) fn check_filled(held: Option<Link>, place: usize) -> Result<(), Denial>
    ensures { result ≡ reply (first_no (held_questions held place)) tt }
{
    if held.is_none() {
        return Err(Denial::new(Question::PlaceFilled, Layer::Map, place));
    }
    Ok(())
}
