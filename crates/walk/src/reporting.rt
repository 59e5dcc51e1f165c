// The text of a walk, for the person who asks what a list does.
ghost use Rattle.std.specs.Prelude.{IfOk, string_bytes};
ghost use Rattle.walk.specs.Texts.{WalkReports, Reports};

use crate::arguments::Request;
use netmap::{Image, Map};
use segments::{Spread, walk};
use std::alloc::{AllocError, Global};
use tariff::Cost;

// `END VALUE GRAINS MICROSECONDS COUNT` of a walk, or the line of its refusal.
fn report_walk<M: Map>(
    heap: Global,
    map: &M,
    request: &Request,
    dist: &mut [Option<u32>],
    spread: &mut [Option<Spread<Cost>>],
) -> Result<String, AllocError>
    ensures { IfOk result (λ text. WalkReports request.now.source request.now.grain.0 request.now.list.items dist.old dist.new spread.old spread.new (M.meaning map.now) (string_bytes text)) }
{
    let list = &request.list;
    match walk(map, request.source, request.grain, list, dist, spread) {
        Ok(walked) => {
            let end = walked.end;
            let value = walked.figures.value.weight;
            let grains = walked.figures.grains.0;
            let delay = walked.figures.delay.0;
            let count = walked.figures.labels.0;
            format!(in heap; "{end} {value} {grains} {delay} {count}\n")
        }
        Err(denial) => format!(in heap; "{denial}\n"),
    }
}

// The walk over the map whose image the bytes are, or the line of the map's refusal.
// A listing begins alike; one function for both would take what to do with the map, and its promise, as a closure.
pub(crate) fn report(
    heap: Global,
    bytes: &mut [u8],
    request: &Request,
    dist: &mut [Option<u32>],
    spread: &mut [Option<Spread<Cost>>],
) -> Result<String, AllocError>
    ensures { IfOk result (λ text. Reports request.now.source request.now.grain.0 request.now.list.items dist.old dist.new spread.old spread.new bytes.old (string_bytes text)) }
{
    let mut image = Image::over(bytes);
    match image.open() {
        Ok(()) => report_walk(heap, &image, request, dist, spread),
        Err(denial) => format!(in heap; "{denial}\n"),
    }
}
