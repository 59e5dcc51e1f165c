// The bytes of an image, taken apart as fields and made from them.
ghost use Rattle.std.specs.Prelude.{◌≡◌, ◌+◌, ◌<◌, ◌≤◌, ◌++◌, length, Some, None, MatchResult, slice_index};
ghost use Rattle.questions.specs.Asking.{first_no, reply};
ghost use Rattle.netmap.specs.Layout.{two_bytes, ends, figures, image_size, Images};
ghost use Rattle.netmap.specs.Reading.{two_at, four_at, link_in, marked_empty, place_of, field_questions, header_questions, image_denial, decode};
ghost use Rattle.netmap.specs.Spans.{Written, PlaceWritten};

use crate::checks::check_link;
use crate::link::{Link, Microseconds};
use crate::sizes::Sizes;
use questions::{Denial, Layer, Question};

// What an empty place has for its tail and for its head, as the format sets it; in memory such a place is `None`.
const NO_NODE: u8 = 0xff;

// What two bytes of ends and ten of figures say.
fn link_of(ends: &[u8], figures: &[u8]) -> Link
    requires ends { length ends.now ≡ 2 }
    requires figures { length figures.now ≡ 10 }
    ensures tail { result.tail ≡ slice_index ends.now 0 }
    ensures head { result.head ≡ slice_index ends.now 1 }
    ensures weight { result.weight ≡ two_at figures.now 0 }
    ensures delay { result.delay.0 ≡ four_at figures.now 2 }
    ensures figure { result.figure ≡ four_at figures.now 6 }
{
    let &[tail, head] = ends else { unreachable() };
    let &[w0, w1, d0, d1, d2, d3, f0, f1, f2, f3] = figures else {
        unreachable()
    };
    Link {
        tail,
        head,
        weight: u16::from_be_bytes([w0, w1]),
        delay: Microseconds(u32::from_be_bytes([d0, d1, d2, d3])),
        figure: u32::from_be_bytes([f0, f1, f2, f3]),
    }
}

// The fields of a place, whatever they hold.
// `read_place` and `write_place` ask the same of place and bytes; a type for the three would lend bytes to be read and to be written.
fn read_link(bytes: &[u8], places: usize, place: usize) -> Link
    requires within { place < places }
    requires room { image_size places ≤ length bytes.now }
    ensures { result ≡ link_in places bytes.now place }
{
    let at = 4 + 2 * place;
    let from = 4 + 2 * places + 10 * place;
    link_of(&bytes[at..at + 2], &bytes[from..from + 10])
}

fn is_marked_empty(link: Link) -> bool
    ensures { result ≡ marked_empty link }
{
    link.tail == NO_NODE && link.head == NO_NODE
}

pub(crate) fn read_place(bytes: &[u8], places: usize, place: usize) -> Option<Link>
    requires within { place < places }
    requires room { image_size places ≤ length bytes.now }
    ensures { result ≡ place_of (link_in places bytes.now place) }
{
    let link = read_link(bytes, places, place);
    if is_marked_empty(link) {
        None
    } else {
        Some(link)
    }
}

fn check_fields(nodes: usize, link: Link, place: usize) -> Result<(), Denial>
    ensures { result ≡ reply (first_no (field_questions nodes link place)) tt }
{
    if !is_marked_empty(link) {
        return check_link(nodes, link, place);
    }
    if link.weight != 0 || link.delay.0 != 0 || link.figure != 0 {
        return Err(Denial::new(Question::EmptyBlank, Layer::Map, place));
    }
    Ok(())
}

fn check_header(bytes: &[u8]) -> Result<Sizes, Denial>
    ensures { MatchResult result
        (λ s. (first_no (header_questions bytes.now) ≡ None) × (s.nodes ≡ two_at bytes.now 0) × (s.places ≡ two_at bytes.now 2))
        (λ d. first_no (header_questions bytes.now) ≡ Some d) }
{
    let &[n0, n1, p0, p1, ..] = bytes else {
        return Err(Denial::new(Question::HeaderBytes, Layer::File, bytes.len()));
    };
    let sizes = Sizes {
        nodes: usize::from(u16::from_be_bytes([n0, n1])),
        places: usize::from(u16::from_be_bytes([p0, p1])),
    };
    sizes.check()?;
    // as in `store`: the bound on places is known after the check alone
    if bytes.len() != 4 + 12 * sizes.places {
        return Err(Denial::new(Question::ImageLength, Layer::File, bytes.len()));
    }
    Ok(sizes)
}

// The counts of the network whose image the bytes are.
pub(crate) fn examine(bytes: &[u8]) -> Result<Sizes, Denial>
    ensures { MatchResult result
        (λ s. (image_denial bytes.now ≡ None) × Images bytes.now (decode s.nodes s.places bytes.now))
        (λ d. image_denial bytes.now ≡ Some d) }
{
    let sizes = check_header(bytes)?;
    // a denial tells the number of its place
    for place in 0..sizes.places {
        check_fields(sizes.nodes, read_link(bytes, sizes.places, place), place)?;
    }
    Ok(sizes)
}

fn end_bytes(held: Option<Link>) -> [u8; 2]
    ensures { result ≡ ends held }
{
    match held {
        None => [NO_NODE, NO_NODE],
        Some(link) => [link.tail, link.head],
    }
}

fn figure_bytes(held: Option<Link>) -> [u8; 10]
    ensures { result ≡ figures held }
{
    match held {
        None => [0; 10],
        Some(link) => {
            let [w0, w1] = link.weight.to_be_bytes();
            let [d0, d1, d2, d3] = link.delay.0.to_be_bytes();
            let [f0, f1, f2, f3] = link.figure.to_be_bytes();
            [w0, w1, d0, d1, d2, d3, f0, f1, f2, f3]
        }
    }
}

fn write_run(bytes: &mut [u8], at: usize, run: &[u8])
    requires { at + length run.now ≤ length bytes.old }
    ensures { Written bytes.old bytes.new at run.now (length run.now) }
{
    bytes[at..at + run.len()].copy_from_slice(run);
}

pub(crate) fn write_sizes(bytes: &mut [u8], sizes: Sizes)
    requires room { 4 ≤ length bytes.old }
    requires nodes { sizes.nodes < 65536 }
    requires places { sizes.places < 65536 }
    ensures { Written bytes.old bytes.new 0 (two_bytes sizes.nodes ++ two_bytes sizes.places) 4 }
{
    let [n0, n1] = (sizes.nodes as u16).to_be_bytes();
    let [p0, p1] = (sizes.places as u16).to_be_bytes();
    write_run(bytes, 0, &[n0, n1, p0, p1]);
}

// Writes one of so many places.
pub(crate) fn write_place(bytes: &mut [u8], places: usize, place: usize, held: Option<Link>)
    requires within { place < places }
    requires room { image_size places ≤ length bytes.old }
    ensures { PlaceWritten bytes.old bytes.new places place held }
{
    write_run(bytes, 4 + 2 * place, &end_bytes(held));
    write_run(bytes, 4 + 2 * places + 10 * place, &figure_bytes(held));
}
