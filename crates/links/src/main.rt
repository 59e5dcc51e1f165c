// Reads map bytes on standard input, and lists the map or says why it is refused.
#![tactic(auto)]

use console::{LONGEST_MAP, conclude, read_input};
use netmap::listing::report;
use std::process::ExitCode;

fn main(rt: HostRuntime) -> ExitCode {
    conclude(&rt, "links", run(&rt))
}

fn run(rt: &HostRuntime) -> anyhow::Result<()> {
    let mut bytes = read_input(rt.alloc(), rt.stdin(), LONGEST_MAP)?;
    rt.print(report(rt.alloc(), &mut bytes)?)?;
    Ok(())
}
