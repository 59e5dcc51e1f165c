// Small networks, and walks over them.
use netmap::{Link, Map, Microseconds, RecordTable};
use questions::Denial;
use segments::{Spread, Walk, walk};
use tariff::{Cost, Scarcity, Tariff};

fn link(tail: u8, head: u8, weight: u16, delay: u32, figure: u32) -> Link {
    Link::new(tail, head, weight, Microseconds(delay), figure)
}

// Four nodes; from 0 to 3 the least weight has the largest delay.
pub(crate) fn net_a() -> [Link; 5] {
    [
        link(0, 1, 1, 4000, 10),
        link(1, 3, 1, 4000, 40),
        link(0, 2, 1, 1500, 20),
        link(2, 3, 2, 1500, 20),
        link(0, 3, 5, 900, 30),
    ]
}

// Four nodes, two equal paths from 0 to 3, and a figure of choice on the link from 1 to 3.
pub(crate) fn net_b(figure: u32) -> [Link; 4] {
    [
        link(0, 1, 1, 100, 1),
        link(1, 3, 1, 100, figure),
        link(0, 2, 1, 100, 1),
        link(2, 3, 1, 900, 1),
    ]
}

// Three nodes, and two links from 0 to 1.
pub(crate) fn net_c() -> [Link; 4] {
    [
        link(0, 1, 1, 1000, 5),
        link(0, 1, 2, 1000, 2),
        link(1, 2, 1, 1000, 9),
        link(0, 2, 1, 5000, 20),
    ]
}

// Two nodes and a link each way, of the largest weight and delay.
pub(crate) fn ring() -> [Link; 2] {
    [
        link(0, 1, 65_535, 100_000, 0),
        link(1, 0, 65_535, 100_000, 0),
    ]
}

// Opens the map, and puts the links at its first places.
pub(crate) fn fill(map: &mut RecordTable<'_>, nodes: usize, net: &[Link]) -> Result<(), Denial> {
    map.open(nodes)?;
    for (place, link) in net.iter().enumerate() {
        map.put(place, *link)?;
    }
    Ok(())
}

// The end of a list, its value, grains and microseconds, and the count of its entries.
pub(crate) type Reply = Result<(u8, u32, u32, u32, u16), Denial>;

// Walks a list over a map of six places, under a tariff whose values are numbers.
// The slice is the caller's, since an array of a type parameter may be too large.
fn walked<V: Tariff, F: Fn(V) -> u32>(
    nodes: usize,
    net: &[Link],
    source: u8,
    grain: u32,
    list: &[u16],
    spread: &mut [Option<Spread<V>>],
    number: F,
) -> Reply
    requires { F.IsAlwaysCallable number }
{
    let mut records = [None; 6];
    let mut map = RecordTable::over(&mut records);
    fill(&mut map, nodes, net)?;
    let mut dist = [None; 16];
    let Walk { end, figures } = walk(&map, source, Microseconds(grain), list, &mut dist, spread)?;
    Ok((
        end,
        number(figures.value),
        figures.grains.0,
        figures.delay.0,
        figures.labels.0,
    ))
}

pub(crate) fn cost(nodes: usize, net: &[Link], source: u8, grain: u32, list: &[u16]) -> Reply {
    let mut spread = [None; 16];
    walked(
        nodes,
        net,
        source,
        grain,
        list,
        &mut spread,
        |cost: Cost| cost.weight,
    )
}

pub(crate) fn scarcity(nodes: usize, net: &[Link], source: u8, grain: u32, list: &[u16]) -> Reply {
    let mut spread = [None; 16];
    walked(
        nodes,
        net,
        source,
        grain,
        list,
        &mut spread,
        |scarcity: Scarcity| scarcity.figure,
    )
}
