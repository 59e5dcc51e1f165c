// What walk refuses: by its questions, in their order, and at an entry that is illegal where it stands.
use crate::nets::{Reply, cost, fill, net_a, net_c};
use netmap::{Microseconds, RecordTable};
use questions::{Denial, Layer, Question};
use segments::{Spread, walk};
use std::process::Abort;
use std::test::Fail;
use tariff::Scarcity;

// A call of walk on net A, with so many slots in the working slices and so many entries in the list.
#[derive(Clone, Copy)]
struct Call {
    source: u8,
    grain: u32,
    dist: usize,
    spread: usize,
    count: usize,
}

// Nothing is wrong with it.
const GRANTED: Call = Call {
    source: 0,
    grain: 1000,
    dist: 16,
    spread: 16,
    count: 1,
};

// Makes the call, which is to be denied and to leave the slices as they were.
fn check_denied(rt: &impl Abort, question: Question, call: Call) -> Result<(), Fail> {
    let mut records = [None; 5];
    let mut map = RecordTable::over(&mut records);
    fill(&mut map, 4, &net_a())?;
    let list = [1; 11];
    let mut dist = [Some(7); 16];
    let held = Some(Spread {
        delay: Microseconds(8),
        value: Scarcity { figure: 9 },
    });
    let mut spread = [held; 16];
    assert!(rt; call.count <= 11 && call.dist <= 16 && call.spread <= 16);
    let reply = walk(
        &map,
        call.source,
        Microseconds(call.grain),
        &list[..call.count],
        &mut dist[..call.dist],
        &mut spread[..call.spread],
    );
    let denial = Denial::new(question, Layer::Order, 0);
    assert_eq!(rt; reply.err(), Some(denial));
    assert_eq!(rt; dist, [Some(7); 16]);
    assert_eq!(rt; spread, [held; 16]);
    Ok(())
}

#[test]
fn a_denied_walk_leaves_the_slices(rt: HostRuntime) -> Result<(), Fail> {
    let call = GRANTED;
    check_denied(&rt, Question::OrderNodes, Call { source: 4, ..call })?;
    check_denied(
        &rt,
        Question::OrderNodes,
        Call {
            source: 255,
            ..call
        },
    )?;
    check_denied(&rt, Question::GrainRange, Call { grain: 0, ..call })?;
    check_denied(
        &rt,
        Question::GrainRange,
        Call {
            grain: 10_001,
            ..call
        },
    )?;
    check_denied(&rt, Question::WorkingSpace, Call { dist: 15, ..call })?;
    check_denied(&rt, Question::WorkingSpace, Call { spread: 15, ..call })?;
    check_denied(&rt, Question::WalkLength, Call { count: 11, ..call })
}

#[test]
fn the_first_question_answered_no_denies(rt: HostRuntime) -> Result<(), Fail> {
    let length = Call {
        source: 3,
        count: 11,
        ..GRANTED
    };
    let space = Call {
        dist: 15,
        spread: 15,
        ..length
    };
    let grain = Call { grain: 0, ..space };
    let nodes = Call { source: 4, ..grain };
    check_denied(&rt, Question::OrderNodes, nodes)?;
    check_denied(&rt, Question::GrainRange, grain)?;
    check_denied(&rt, Question::WorkingSpace, space)?;
    check_denied(&rt, Question::WalkLength, length)
}

fn illegal(index: usize) -> Reply {
    Err(Denial::new(Question::EntryLegal, Layer::List, index))
}

// Codes at nodes of net A, on a map whose places 0 to 4 are filled and whose place 5 is empty.
#[test]
fn a_code_is_illegal_where_it_names_nothing(rt: HostRuntime) {
    for (at, code) in [
        // the present node
        (0, 0),
        (3, 3),
        // no path
        (3, 0),
        (1, 2),
        // no such node
        (0, 4),
        (0, 63),
        // an empty place, and no such place
        (0, 261),
        (0, 262),
        (0, 511),
        // a link that begins elsewhere
        (0, 257),
        (3, 256),
        // no segment has such a code
        (0, 64),
        (0, 255),
        (0, 512),
        (0, 65_535),
    ] {
        assert_eq!(rt; cost(4, &net_a(), at, 1000, &[code]), illegal(0));
    }
}

#[test]
fn a_denial_tells_the_first_illegal_entry(rt: HostRuntime) {
    let net = net_a();
    assert_eq!(rt; cost(4, &net, 0, 1000, &[1, 1]), illegal(1));
    assert_eq!(rt; cost(4, &net, 0, 1000, &[1, 257, 0]), illegal(2));
    assert_eq!(rt; cost(4, &net, 0, 1000, &[257, 1, 0]), illegal(0));
}

#[test]
fn a_node_without_links_is_out_of_reach(rt: HostRuntime) {
    assert_eq!(rt; cost(4, &net_c(), 0, 1000, &[3]), illegal(0));
    assert_eq!(rt; cost(4, &net_c(), 0, 1000, &[2, 3]), illegal(1));
}
