// Lines of walks and of refusals, and what the arguments ask for.
use crate::arguments::{Request, read_words};
use crate::reporting::report;
use netmap::Microseconds;
use std::process::Abort;
use std::test::Fail;

// The map that the program's own run reads, with one byte of choice: the first of the delay at place 2.
fn image(byte: u8) -> [u8; 64] {
    let mut bytes =
        *b"\x00\x04\x00\x05\x00\x01\x01\x03\x00\x02\x02\x03\x00\x03\x00\x01\x00\x00\x0f\xa0\x00\x00\x00\x0a\x00\x01\x00\x00\x0f\xa0\x00\x00\x00\x28\x00\x01\x00\x00\x05\xdc\x00\x00\x00\x14\x00\x02\x00\x00\x05\xdc\x00\x00\x00\x14\x00\x05\x00\x00\x03\x84\x00\x00\x00\x1e";
    bytes[36] = byte;
    bytes
}

fn reported(
    rt: &(impl Abort + AllocGlobal),
    mut bytes: [u8; 64],
    source: u8,
    grain: u32,
    list: &[u16],
    text: &str,
) -> Result<(), Fail> {
    let request = Request {
        source,
        grain: Microseconds(grain),
        list: Vec::from_slice(rt.alloc(), list)?,
    };
    let mut dist = [None; 16];
    let mut spread = [None; 16];
    let got = report(rt.alloc(), &mut bytes, &request, &mut dist, &mut spread)?;
    assert_eq!(rt; got.as_str(), text);
    Ok(())
}

#[test]
fn a_walk_is_one_line(rt: HostRuntime) -> Result<(), Fail> {
    reported(&rt, image(0), 0, 1000, &[3], "3 2 8 8000 1\n")?;
    reported(&rt, image(0), 0, 1000, &[2, 3], "3 3 4 3000 2\n")?;
    reported(&rt, image(0), 0, 1000, &[260], "3 5 1 900 1\n")?;
    reported(&rt, image(0), 0, 1000, &[], "0 0 0 0 0\n")
}

#[test]
fn a_refusal_is_one_line(rt: HostRuntime) -> Result<(), Fail> {
    reported(&rt, image(0), 4, 1000, &[3], "refused 14 order 0\n")?;
    reported(&rt, image(0), 0, 0, &[3], "refused 16 order 0\n")?;
    reported(&rt, image(0), 0, 1000, &[1; 11], "refused 22 order 0\n")?;
    reported(&rt, image(0), 0, 1000, &[3, 0], "refused 23 list 1\n")?;
    reported(&rt, image(255), 4, 0, &[3], "refused 8 map 2\n")
}

// What the words ask for: a source, a grain and the codes.
fn asks(
    rt: &(impl Abort + AllocGlobal),
    words: &str,
    source: u8,
    grain: u32,
    list: &[u16],
) -> Result<(), Fail> {
    let heap = rt.alloc();
    let all: Vec<String> = words
        .split(' ')
        .map(|word| String::from_str(heap, word))
        .try_collect(heap)?;
    let got = read_words(heap, all.into_iter())?;
    assert_eq!(rt; (got.source, got.grain.0), (source, grain));
    assert_eq!(rt; got.list.as_slice(), list);
    Ok(())
}

#[test]
fn numbers_that_are_too_large_name_nothing(rt: HostRuntime) -> Result<(), Fail> {
    asks(&rt, "walk 0 1000", 0, 1000, &[])?;
    asks(&rt, "walk 63 1 2 3", 63, 1, &[2, 3])?;
    asks(
        &rt,
        "walk 256 4294967296 65536 65535",
        255,
        4_294_967_295,
        &[65_535, 65_535],
    )
}
