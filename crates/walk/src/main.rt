// Reads map bytes on standard input and walks the segment list of its arguments, SOURCE GRAIN CODE...
// Prints END VALUE GRAINS MICROSECONDS COUNT under the cost tariff, or the line of the refusal.
#![tactic(auto)]

mod arguments;
mod reporting;
#[cfg(test)]
mod tests;

use arguments::read_words;
use console::{LONGEST_MAP, conclude, read_input};
use reporting::report;
use std::env;
use std::process::ExitCode;

// A slot for each pair of the 64 nodes that a map may have.
const SLOTS: usize = 4096;

fn main(rt: HostRuntime) -> ExitCode {
    conclude(&rt, "walk", run(&rt))
}

fn run(rt: &HostRuntime) -> anyhow::Result<()> {
    let request = read_words(rt.alloc(), env::args(rt)?)?;
    let mut bytes = read_input(rt.alloc(), rt.stdin(), LONGEST_MAP)?;
    let mut dist = [None; SLOTS];
    let mut spread = [None; SLOTS];
    let text = report(rt.alloc(), &mut bytes, &request, &mut dist, &mut spread)?;
    rt.print(text)?;
    Ok(())
}
