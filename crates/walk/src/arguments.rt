// The arguments: a source, a grain and the codes of a list.
use anyhow::anyhow;
use netmap::Microseconds;
use std::alloc::Global;
use std::env::Args;

#[derive(Drop)]
pub(crate) struct Request {
    pub(crate) source: u8,
    pub(crate) grain: Microseconds,
    pub(crate) list: Vec<u16>,
}

// What the words behind the program's name ask for.
// A number that its field cannot hold becomes the largest that it can, which the walk refuses as well:
// no node is 255, no grain is so long, and no segment has the code 65,535.
pub(crate) fn read_words(heap: Global, mut words: Args) -> anyhow::Result<Request> {
    let _program = words.next();
    let source = number("SOURCE", words.next(), u8::MAX)?;
    let grain = number("GRAIN", words.next(), u32::MAX)?;
    let list = words
        .map(|word| number("CODE", Some(word), u16::MAX))
        .try_collect(heap)?;
    Ok(Request {
        source,
        grain: Microseconds(grain),
        list,
    })
}

// The number that a word writes, or the largest of its type.
fn number<T>(name: &str, word: Option<String>, largest: T) -> anyhow::Result<T>
where
    T: TryFrom<u64> + Drop,
    T::Error: Drop,
{
    let word = word.ok_or_else(|| {
        anyhow!("{name} is missing; usage: walk SOURCE GRAIN [CODE...]")
    })?;
    let number = word.as_str().parse::<u64>().map_err(|_| {
        anyhow!("{name} must be a whole number below 2^64, not {word:?}")
    })?;
    Ok(T::try_from(number).unwrap_or(largest))
}
