// How many nodes and places a map has.
ghost use Rattle.std.specs.Prelude.{◌≡◌, ◌<◌, Some};
ghost use Rattle.questions.specs.Asking.{first_no, reply, Checks};
ghost use Rattle.netmap.specs.Changes.{place_questions, put_questions};
ghost use Rattle.netmap.specs.Net.{Fit, places as place_count};
ghost use Rattle.netmap.specs.Opening.{size_denial};
ghost use Rattle.netmap.specs.Texts.{counts_text};

use crate::checks::check_link;
use crate::link::Link;
use crate::map::Map;
use questions::{Denial, Layer, Question};
use std::fmt;

#[derive(Clone, Copy)]
pub(crate) struct Sizes {
    pub(crate) nodes: usize,
    pub(crate) places: usize,
}

const MAX_NODES: usize = 64;

const MAX_PLACES: usize = 256;

impl Sizes {
    // Of a map that is not open.
    pub(crate) const NO_PLACES: Sizes = Sizes {
        nodes: 1,
        places: 0,
    };

    pub(crate) fn of<M: Map>(map: &M) -> Sizes
        ensures nodes { result.nodes ≡ (M.meaning map.now).nodes }
        ensures places { result.places ≡ place_count (M.meaning map.now) }
    {
        Sizes {
            nodes: map.nodes(),
            places: map.places(),
        }
    }

    pub(crate) fn check(self) -> Result<(), Denial>
        ensures { result ≡ reply (size_denial self.nodes self.places) tt }
    {
        if self.nodes < 1 || self.nodes > MAX_NODES {
            return Err(Denial::new(Question::NodeCount, Layer::Map, 0));
        }
        if self.places > MAX_PLACES {
            return Err(Denial::new(Question::PlaceCount, Layer::Map, 0));
        }
        Ok(())
    }

    pub(crate) fn check_place(self, place: usize) -> Result<(), Denial>
        ensures { Checks (first_no (place_questions self.places place)) (place < self.places) result }
    {
        if place >= self.places {
            return Err(Denial::new(Question::PlaceExists, Layer::Map, place));
        }
        Ok(())
    }

    pub(crate) fn check_put(self, place: usize, link: Link) -> Result<(), Denial>
        ensures { Checks (first_no (put_questions self.nodes self.places place link)) ((place < self.places) × Fit self.nodes (Some link)) result }
    {
        self.check_place(place)?;
        check_link(self.nodes, link, place)
    }
}

// `map NODES PLACES`
impl fmt::Display for Sizes {
    ghost output = { λ s. Some (counts_text s.nodes s.places) };

    fn fmt<W: fmt::Write>(&self, f: &mut fmt::Formatter<W>) -> fmt::Result {
        write!(f, "map {} {}", self.nodes, self.places)
    }
}
