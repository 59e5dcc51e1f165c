// Two examples of the documents: a list of 1,000 grains, and one grain too many.
use crate::agreement::{Space, lay_out, order_of, quote_agrees};
use anyhow::anyhow;
use brute::{Ask, List, Outcome, packed};
use netmap::{Link, Microseconds, RecordTable};
use questions::Question;
use tariff::Cost;

// A row of the table below, whose delay is a plain number; tests of `segments_tests` have tables too, but of no empty places.
fn link(tail: u8, head: u8, weight: u16, delay: u32, figure: u32) -> Option<Link> {
    Some(Link::new(tail, head, weight, Microseconds(delay), figure))
}

// An order from 0 to 3 for a list of at most two entries, in grains of three microseconds.
fn ask_within(bound: u32) -> Ask {
    Ask {
        source: 0,
        target: 3,
        bound,
        limit: 2,
        grain: 3,
    }
}

// Whether the engine answers each example as it should.
// The network is also a test's in `segments_tests`: a crate to share it would be longer than the table.
pub(crate) fn compare_examples(space: &mut Space<Cost>) -> anyhow::Result<[bool; 2]> {
    let places = [
        link(0, 1, 1, 4000, 10),
        link(1, 3, 1, 4000, 40),
        link(0, 2, 1, 1500, 20),
        link(2, 3, 2, 1500, 20),
        link(0, 3, 5, 900, 30),
    ];
    let mut records = [None; 5];
    let mut map = RecordTable::over(&mut records);
    lay_out(&mut map, 4, &places).map_err(|denial| anyhow!("the map of the examples is {denial}"))?;
    let list = List {
        outcome: Outcome {
            end: 3,
            value: 3,
            grains: 1000,
            delay: 3000,
        },
        entries: 2,
        codes: packed(&[2, 3]),
    };
    let agrees = quote_agrees(&map, ask_within(3000), space, Some(list));
    let reply = space.quote(&map, order_of(ask_within(3003)));
    let refuses = reply.is_err_and(|denial| denial.question == Question::BoundGrains);
    Ok([agrees, refuses])
}
