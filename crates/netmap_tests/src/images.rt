// Images: opening, changes in place, and storing.
use crate::samples::denied;
use netmap::{Image, Link, Map, Microseconds, RecordTable, store};
use questions::{Denial, Layer, Question};
use std::test::Fail;

// Two nodes; at place 0 a link from 0 to 1 with the longest delay and the largest figure, and place 1 empty.
fn small() -> [u8; 28] {
    *b"\x00\x02\x00\x02\x00\x01\xff\xff\x00\x01\x00\x01\x86\xa0\x00\x0f\x42\x40\x00\x00\x00\x00\x00\x00\x00\x00\x00\x00"
}

fn opened(bytes: &mut [u8]) -> Result<(), Denial> {
    let mut image = Image::over(bytes);
    image.open()
}

// The reply to the small image with one byte changed.
fn opened_with(at: usize, byte: u8) -> Result<(), Denial> {
    let mut bytes = small();
    if at < bytes.len() {
        bytes[at] = byte;
    }
    opened(&mut bytes)
}

#[test]
fn the_sizes_are_asked_of(rt: HostRuntime) {
    assert_eq!(rt;
        opened_with(1, 0),
        denied(Question::NodeCount, Layer::Map, 0)
    );
    assert_eq!(rt; opened_with(1, 2), Ok(()));
    assert_eq!(rt; opened_with(1, 64), Ok(()));
    assert_eq!(rt;
        opened_with(1, 65),
        denied(Question::NodeCount, Layer::Map, 0)
    );
    assert_eq!(rt;
        opened_with(0, 1),
        denied(Question::NodeCount, Layer::Map, 0)
    );
    assert_eq!(rt;
        opened_with(2, 1),
        denied(Question::PlaceCount, Layer::Map, 0)
    );
    assert_eq!(rt;
        opened_with(3, 1),
        denied(Question::ImageLength, Layer::File, 28)
    );
}

#[test]
fn each_field_is_asked_of(rt: HostRuntime) {
    assert_eq!(rt;
        opened_with(4, 2),
        denied(Question::EndsExist, Layer::Map, 0)
    );
    assert_eq!(rt;
        opened_with(4, 255),
        denied(Question::EndsExist, Layer::Map, 0)
    );
    assert_eq!(rt;
        opened_with(5, 0),
        denied(Question::EndsDiffer, Layer::Map, 0)
    );
    assert_eq!(rt;
        opened_with(9, 0),
        denied(Question::WeightPositive, Layer::Map, 0)
    );
    assert_eq!(rt; opened_with(8, 255), Ok(()));
    assert_eq!(rt;
        opened_with(13, 0xa1),
        denied(Question::DelayLimit, Layer::Map, 0)
    );
    assert_eq!(rt;
        opened_with(17, 0x41),
        denied(Question::FigureLimit, Layer::Map, 0)
    );
}

#[test]
fn an_empty_place_is_marked_and_blank(rt: HostRuntime) {
    assert_eq!(rt;
        opened_with(6, 0),
        denied(Question::EndsExist, Layer::Map, 1)
    );
    assert_eq!(rt;
        opened_with(7, 0),
        denied(Question::EndsExist, Layer::Map, 1)
    );
    assert_eq!(rt;
        opened_with(18, 1),
        denied(Question::EmptyBlank, Layer::Map, 1)
    );
    assert_eq!(rt;
        opened_with(21, 1),
        denied(Question::EmptyBlank, Layer::Map, 1)
    );
    assert_eq!(rt;
        opened_with(27, 1),
        denied(Question::EmptyBlank, Layer::Map, 1)
    );
}

// The reply to the small image, cut short or with a byte too many.
fn opened_at_length(count: usize) -> Result<(), Denial> {
    let mut bytes = [0; 29];
    bytes[..28].copy_from_slice(&small());
    opened(&mut bytes[..count.min(29)])
}

#[test]
fn the_length_is_exact(rt: HostRuntime) {
    assert_eq!(rt;
        opened_at_length(29),
        denied(Question::ImageLength, Layer::File, 29)
    );
    assert_eq!(rt; opened_at_length(28), Ok(()));
    assert_eq!(rt;
        opened_at_length(27),
        denied(Question::ImageLength, Layer::File, 27)
    );
    assert_eq!(rt;
        opened_at_length(4),
        denied(Question::ImageLength, Layer::File, 4)
    );
    assert_eq!(rt;
        opened_at_length(3),
        denied(Question::HeaderBytes, Layer::File, 3)
    );
    assert_eq!(rt;
        opened_at_length(0),
        denied(Question::HeaderBytes, Layer::File, 0)
    );
    let mut no_places = [0, 1, 0, 0];
    assert_eq!(rt; opened(&mut no_places), Ok(()));
}

#[test]
fn changes_are_made_in_the_bytes(rt: HostRuntime) -> Result<(), Fail> {
    let new = Link::new(1, 0, 0x0102, Microseconds(0x0001_0203), 0x0004_0506);
    let mut bytes = small();
    let mut image = Image::over(&mut bytes);
    assert_eq!(rt; (image.nodes(), image.places()), (1, 0));
    image.open()?;
    assert_eq!(rt; (image.nodes(), image.places()), (2, 2));
    assert_eq!(rt; image.read(1), Ok(None));
    assert_eq!(rt;
        image.remove(1),
        denied(Question::PlaceFilled, Layer::Map, 1)
    );
    assert_eq!(rt;
        image.put(2, new),
        denied(Question::PlaceExists, Layer::Map, 2)
    );
    image.put(1, new)?;
    assert_eq!(rt; image.read(1), Ok(Some(new)));
    image.remove(0)?;
    assert_eq!(rt; image.read(0), Ok(None));
    let want =
        *b"\x00\x02\x00\x02\xff\xff\x01\x00\x00\x00\x00\x00\x00\x00\x00\x00\x00\x00\x01\x02\x00\x01\x02\x03\x00\x04\x05\x06";
    assert_eq!(rt; bytes, want);
    Ok(())
}

#[test]
fn a_denied_change_leaves_the_bytes(rt: HostRuntime) -> Result<(), Fail> {
    let from_itself = Link::new(1, 1, 1, Microseconds(0), 0);
    let mut bytes = small();
    let mut image = Image::over(&mut bytes);
    assert_eq!(rt;
        image.put(0, from_itself),
        denied(Question::PlaceExists, Layer::Map, 0)
    );
    image.open()?;
    assert_eq!(rt;
        image.put(0, from_itself),
        denied(Question::EndsDiffer, Layer::Map, 0)
    );
    assert_eq!(rt;
        image.remove(2),
        denied(Question::PlaceExists, Layer::Map, 2)
    );
    assert_eq!(rt; bytes, small());
    Ok(())
}

#[test]
fn store_needs_the_whole_space(rt: HostRuntime) -> Result<(), Fail> {
    let mut records = [None; 2];
    let mut table = RecordTable::over(&mut records);
    table.open(2)?;
    table.put(0, Link::new(0, 1, 1, Microseconds(100_000), 1_000_000))?;
    let mut short = [7; 27];
    assert_eq!(rt;
        store(&table, &mut short),
        denied(Question::StoreSpace, Layer::File, 27)
    );
    assert_eq!(rt; short, [7; 27]);
    let mut exact = [7; 28];
    assert_eq!(rt; store(&table, &mut exact), Ok(28));
    assert_eq!(rt; exact, small());
    Ok(())
}

#[test]
fn store_leaves_what_lies_behind(rt: HostRuntime) -> Result<(), Fail> {
    let mut records = [None; 2];
    let mut table = RecordTable::over(&mut records);
    table.open(2)?;
    let mut space = [7; 30];
    assert_eq!(rt; store(&table, &mut space), Ok(28));
    assert_eq!(rt; (space[0], space[1], space[27]), (0, 2, 0));
    assert_eq!(rt; (space[28], space[29]), (7, 7));
    Ok(())
}
