// Listings and refusal lines, as the program prints them.
use netmap::listing::report;
use std::process::Abort;
use std::test::Fail;

// The map of the samples: four nodes and five links.
fn five_links() -> [u8; 64] {
    *b"\x00\x04\x00\x05\x00\x01\x01\x03\x00\x02\x02\x03\x00\x03\x00\x01\x00\x00\x0f\xa0\x00\x00\x00\x0a\x00\x01\x00\x00\x0f\xa0\x00\x00\x00\x28\x00\x01\x00\x00\x05\xdc\x00\x00\x00\x14\x00\x02\x00\x00\x05\xdc\x00\x00\x00\x14\x00\x05\x00\x00\x03\x84\x00\x00\x00\x1e"
}

// The same with its first place empty.
fn four_links() -> [u8; 64] {
    let mut bytes = five_links();
    bytes[4..6].fill(0xff);
    bytes[14..24].fill(0);
    bytes
}

fn reported(
    rt: &(impl Abort + AllocGlobal),
    mut bytes: [u8; 64],
    count: usize,
    text: &str,
) -> Result<(), Fail> {
    assert!(rt; count <= 64);
    let got = report(rt.alloc(), &mut bytes[..count])?;
    assert_eq!(rt; got.as_str(), text);
    Ok(())
}

#[test]
fn the_settled_map_is_listed(rt: HostRuntime) -> Result<(), Fail> {
    let text =
        "map 4 5\n0 0 1 1 4000 10\n1 1 3 1 4000 40\n2 0 2 1 1500 20\n3 2 3 2 1500 20\n4 0 3 5 900 30\n";
    reported(&rt, five_links(), 64, text)
}

#[test]
fn an_empty_place_has_no_line(rt: HostRuntime) -> Result<(), Fail> {
    let text = "map 4 5\n1 1 3 1 4000 40\n2 0 2 1 1500 20\n3 2 3 2 1500 20\n4 0 3 5 900 30\n";
    reported(&rt, four_links(), 64, text)
}

#[test]
fn a_damaged_map_is_refused_in_one_line(rt: HostRuntime) -> Result<(), Fail> {
    let mut bytes = five_links();
    bytes[36] = 255;
    reported(&rt, bytes, 64, "refused 8 map 2\n")?;
    reported(&rt, bytes, 63, "refused 4 file 63\n")?;
    reported(&rt, bytes, 2, "refused 3 file 2\n")
}
