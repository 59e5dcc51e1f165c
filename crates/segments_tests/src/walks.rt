// What walks come to.
use crate::nets::{cost, net_a, net_b, net_c, ring, scarcity};

#[test]
fn a_node_code_follows_the_least_weight(rt: HostRuntime) {
    let net = net_a();
    assert_eq!(rt; cost(4, &net, 0, 1000, &[3]), Ok((3, 2, 8, 8000, 1)));
    assert_eq!(rt; scarcity(4, &net, 0, 1000, &[3]), Ok((3, 40, 8, 8000, 1)));
    assert_eq!(rt; cost(4, &net, 2, 1000, &[3]), Ok((3, 2, 2, 1500, 1)));
}

#[test]
fn each_entry_is_rounded_by_itself(rt: HostRuntime) {
    let net = net_a();
    assert_eq!(rt; cost(4, &net, 0, 1000, &[2, 3]), Ok((3, 3, 4, 3000, 2)));
    assert_eq!(rt; cost(4, &net, 0, 1500, &[2, 3]), Ok((3, 3, 2, 3000, 2)));
    assert_eq!(rt;
        scarcity(4, &net, 0, 1000, &[2, 3]),
        Ok((3, 20, 4, 3000, 2))
    );
}

#[test]
fn a_link_code_follows_its_link(rt: HostRuntime) {
    let net = net_a();
    assert_eq!(rt; cost(4, &net, 0, 1000, &[260]), Ok((3, 5, 1, 900, 1)));
    assert_eq!(rt; cost(4, &net, 0, 1000, &[258, 259]), Ok((3, 3, 4, 3000, 2)));
}

#[test]
fn a_list_without_entries_stays(rt: HostRuntime) {
    let net = net_a();
    assert_eq!(rt; cost(4, &net, 0, 1000, &[]), Ok((0, 0, 0, 0, 0)));
    assert_eq!(rt; scarcity(4, &net, 3, 1000, &[]), Ok((3, 0, 0, 0, 0)));
}

#[test]
fn equal_paths_count_by_the_worst(rt: HostRuntime) {
    let net = net_b(1);
    assert_eq!(rt; cost(4, &net, 0, 100, &[3]), Ok((3, 2, 10, 1000, 1)));
    assert_eq!(rt; cost(4, &net, 0, 100, &[1, 3]), Ok((3, 2, 2, 200, 2)));
    assert_eq!(rt; scarcity(4, &net, 0, 100, &[3]), Ok((3, 1, 10, 1000, 1)));
    // the worst value comes from one path, and the largest delay from the other
    assert_eq!(rt;
        scarcity(4, &net_b(7), 0, 100, &[3]),
        Ok((3, 7, 10, 1000, 1))
    );
}

#[test]
fn parallel_links_have_codes_of_their_own(rt: HostRuntime) {
    let net = net_c();
    assert_eq!(rt; scarcity(3, &net, 0, 1000, &[1, 2]), Ok((2, 9, 2, 2000, 2)));
    assert_eq!(rt; cost(3, &net, 0, 1000, &[256]), Ok((1, 1, 1, 1000, 1)));
    assert_eq!(rt; cost(3, &net, 0, 1000, &[257]), Ok((1, 2, 1, 1000, 1)));
    assert_eq!(rt; scarcity(3, &net, 0, 1000, &[256]), Ok((1, 5, 1, 1000, 1)));
    assert_eq!(rt; scarcity(3, &net, 0, 1000, &[257]), Ok((1, 2, 1, 1000, 1)));
}

#[test]
fn grains_have_1_to_10_000_microseconds(rt: HostRuntime) {
    let net = net_a();
    assert_eq!(rt; cost(4, &net, 0, 1, &[3]), Ok((3, 2, 8000, 8000, 1)));
    assert_eq!(rt; cost(4, &net, 0, 10_000, &[3]), Ok((3, 2, 1, 8000, 1)));
}

#[test]
fn ten_entries_are_walked(rt: HostRuntime) {
    assert_eq!(rt;
        cost(2, &ring(), 0, 10_000, &[1, 0, 1, 0, 1, 0, 1, 0, 256, 257]),
        Ok((0, 655_350, 100, 1_000_000, 10))
    );
}
