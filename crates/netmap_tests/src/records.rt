// Record tables: opening, and what put, read and remove reply.
use crate::samples::denied;
use netmap::{Link, Map, Microseconds, RecordTable};
use questions::{Denial, Layer, Question};
use std::test::Fail;

fn opened(nodes: usize, places: usize) -> Result<(), Denial> {
    let mut records = [None; 257];
    let mut table = RecordTable::over(&mut records[..places.min(257)]);
    table.open(nodes)
}

#[test]
fn opening_counts_nodes_and_places(rt: HostRuntime) {
    assert_eq!(rt; opened(0, 4), denied(Question::NodeCount, Layer::Map, 0));
    assert_eq!(rt; opened(1, 0), Ok(()));
    assert_eq!(rt; opened(64, 256), Ok(()));
    assert_eq!(rt; opened(65, 256), denied(Question::NodeCount, Layer::Map, 0));
    assert_eq!(rt;
        opened(64, 257),
        denied(Question::PlaceCount, Layer::Map, 0)
    );
    assert_eq!(rt; opened(65, 257), denied(Question::NodeCount, Layer::Map, 0));
}

#[test]
fn opening_empties_every_record_or_none(rt: HostRuntime) {
    let some = Some(Link::new(0, 1, 1, Microseconds(0), 0));
    let mut records = [some; 3];
    let mut table = RecordTable::over(&mut records);
    assert_eq!(rt; table.open(65), denied(Question::NodeCount, Layer::Map, 0));
    assert_eq!(rt; records, [some; 3]);
    let mut table = RecordTable::over(&mut records);
    assert_eq!(rt; table.open(2), Ok(()));
    assert_eq!(rt; records, [None; 3]);
}

fn put(place: usize, link: Link) -> Result<(), Denial> {
    let mut records = [None; 2];
    let mut table = RecordTable::over(&mut records);
    table.open(4)?;
    table.put(place, link)
}

#[test]
fn put_asks_of_the_place_and_then_of_the_link(rt: HostRuntime) {
    assert_eq!(rt;
        put(2, Link::new(9, 9, 0, Microseconds(100_001), 1_000_001)),
        denied(Question::PlaceExists, Layer::Map, 2)
    );
    assert_eq!(rt;
        put(1, Link::new(4, 4, 0, Microseconds(100_001), 1_000_001)),
        denied(Question::EndsExist, Layer::Map, 1)
    );
    assert_eq!(rt;
        put(1, Link::new(0, 4, 1, Microseconds(0), 0)),
        denied(Question::EndsExist, Layer::Map, 1)
    );
    assert_eq!(rt;
        put(1, Link::new(3, 3, 0, Microseconds(100_001), 1_000_001)),
        denied(Question::EndsDiffer, Layer::Map, 1)
    );
    assert_eq!(rt;
        put(1, Link::new(0, 3, 0, Microseconds(100_001), 1_000_001)),
        denied(Question::WeightPositive, Layer::Map, 1)
    );
    assert_eq!(rt;
        put(1, Link::new(0, 3, 1, Microseconds(100_001), 1_000_001)),
        denied(Question::DelayLimit, Layer::Map, 1)
    );
    assert_eq!(rt;
        put(0, Link::new(0, 3, 1, Microseconds(100_000), 1_000_001)),
        denied(Question::FigureLimit, Layer::Map, 0)
    );
    assert_eq!(rt;
        put(0, Link::new(0, 3, 1, Microseconds(100_000), 1_000_000)),
        Ok(())
    );
    assert_eq!(rt; put(1, Link::new(3, 0, 65_535, Microseconds(0), 0)), Ok(()));
}

#[test]
fn put_replaces_and_remove_empties(rt: HostRuntime) -> Result<(), Fail> {
    let first = Link::new(0, 1, 1, Microseconds(10), 0);
    let second = Link::new(1, 0, 2, Microseconds(20), 5);
    let mut records = [None; 2];
    let mut table = RecordTable::over(&mut records);
    assert_eq!(rt; (table.nodes(), table.places()), (1, 0));
    table.open(2)?;
    assert_eq!(rt; (table.nodes(), table.places()), (2, 2));
    assert_eq!(rt;
        table.remove(1),
        denied(Question::PlaceFilled, Layer::Map, 1)
    );
    table.put(1, first)?;
    table.put(1, second)?;
    assert_eq!(rt; table.read(1), Ok(Some(second)));
    assert_eq!(rt; table.read(0), Ok(None));
    assert_eq!(rt; table.read(2), denied(Question::PlaceExists, Layer::Map, 2));
    assert_eq!(rt; table.remove(1), Ok(()));
    assert_eq!(rt;
        table.remove(1),
        denied(Question::PlaceFilled, Layer::Map, 1)
    );
    assert_eq!(rt;
        table.remove(2),
        denied(Question::PlaceExists, Layer::Map, 2)
    );
    assert_eq!(rt; records, [None; 2]);
    Ok(())
}
