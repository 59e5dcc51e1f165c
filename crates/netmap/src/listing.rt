// The text of a map, for the person who enrols a carrier.
ghost use Rattle.std.specs.Prelude.{◌≡◌, IfOk, Some, string_bytes};
ghost use Rattle.netmap.specs.Texts.{link_text, listed, Reports};

use crate::image::Image;
use crate::link::Link;
use crate::map::{Map, held};
use crate::sizes::Sizes;
use std::alloc::{AllocError, Global};
use std::fmt;

// A link at its place, shown as `PLACE TAIL HEAD WEIGHT DELAY FIGURE`.
#[derive(Clone, Copy)]
struct Row {
    place: usize,
    link: Link,
}

impl fmt::Display for Row {
    ghost output = { λ r. Some (link_text r.place r.link) };

    fn fmt<W: fmt::Write>(&self, f: &mut fmt::Formatter<W>) -> fmt::Result {
        let Row { place, link } = *self;
        write!(
            f,
            "{place} {} {} {} {} {}",
            link.tail, link.head, link.weight, link.delay.0, link.figure
        )
    }
}

// The counts of a map, then a line for each filled place.
pub fn listing<M: Map>(heap: Global, map: &M) -> Result<String, AllocError>
    ensures { IfOk result (λ text. string_bytes text ≡ listed (M.meaning map.now)) }
{
    let mut text = format!(in heap; "{}\n", Sizes::of(map))?;
    // a line begins with the number of its place
    for place in 0..map.places() {
        if let Some(link) = held(map, place) {
            writeln!(text, "{}", Row { place, link })?;
        }
    }
    Ok(text)
}

// The listing of the map whose image the bytes are, or the line of its refusal.
pub fn report(heap: Global, bytes: &mut [u8]) -> Result<String, AllocError>
    ensures says { IfOk result (λ text. Reports bytes.old (string_bytes text)) }
    ensures same { bytes.new ≡ bytes.old }
{
    let mut image = Image::over(bytes);
    match image.open() {
        Ok(()) => listing(heap, &image),
        Err(denial) => format!(in heap; "{denial}\n"),
    }
}
