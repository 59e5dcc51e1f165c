// Values of the two tariffs.
use crate::{Cost, Ranking, Scarcity, Tariff};
use netmap::{Link, Microseconds};

const LINK: Link = Link {
    tail: 0,
    head: 1,
    weight: 65_535,
    delay: Microseconds(4),
    figure: 7,
};

#[test]
fn costs_add_up_to_a_ceiling(rt: HostRuntime) {
    let link: Cost = <Cost as Tariff>::of_link(LINK);
    assert_eq!(rt; link, Cost { weight: 65_535 });
    assert_eq!(rt; <Cost as Tariff>::neutral().join(link), link);
    assert_eq!(rt; link.join(link), Cost { weight: 131_070 });
    assert_eq!(rt;
        Cost {
            weight: 4_294_967_290,
        }
        .join(Cost { weight: 6 }),
        Cost {
            weight: 4_294_967_295,
        }
    );
    assert!(rt;
        link.as_good(link) && link.as_good(link.join(link)) && !link.join(link).as_good(link)
    );
}

#[test]
fn scarcities_join_to_the_larger(rt: HostRuntime) {
    let link: Scarcity = <Scarcity as Tariff>::of_link(LINK);
    assert_eq!(rt; link, Scarcity { figure: 7 });
    assert_eq!(rt; <Scarcity as Tariff>::neutral().join(link), link);
    assert_eq!(rt; link.join(Scarcity { figure: 9 }), Scarcity { figure: 9 });
    assert_eq!(rt; Scarcity { figure: 9 }.join(link), Scarcity { figure: 9 });
    assert!(rt;
        link.as_good(link)
            && link.as_good(Scarcity { figure: 9 })
            && !link.as_good(Scarcity { figure: 6 })
    );
}
