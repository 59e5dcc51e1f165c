// What the programs share: they read an input, and end with a message where something failed.
#![tactic(auto)]

ghost use Rattle.std.specs.Prelude.{◌≡◌, ◌+◌, IfOk, IfSome, OnOk, OnErr, take};
ghost use Rattle.std.specs.Process.{exit_status};

use std::alloc::Global;
use std::fmt::Display;
use std::io;
use std::io::Read;
use std::process::ExitCode;

#[cfg(test)]
mod tests;

// How many bytes the longest map has: four, and twelve for each of 256 places. `netmap` keeps its numbers, and this crate needs none else of it.
pub const LONGEST_MAP: u32 = 4 + 12 * 256;

// The bytes of an input; of one that is longer than the limit, one byte more than that, so that it is seen to be.
pub fn read_input<R: Read + Drop>(heap: Global, input: R, limit: u32) -> io::Result<Vec<u8>>
    ensures { IfOk result (λ bytes. IfSome (R.remaining input) (λ all. bytes.items ≡ take (limit + 1) all)) }
{
    let mut bytes = Vec::new(heap);
    input.take(u64::from(limit) + 1).read_to_end(&mut bytes)?;
    Ok(bytes)
}

// How a program ends; where it failed, its name and the reason are on the standard error.
pub fn conclude<E: Display + Drop>(
    rt: &impl Eprint,
    program: &str,
    outcome: Result<(), E>,
) -> ExitCode
    ensures ok { OnOk outcome (exit_status result ≡ 0) }
    ensures err { OnErr outcome (exit_status result ≡ 1) }
{
    match outcome {
        Ok(()) => ExitCode::SUCCESS,
        Err(error) => {
            // where even that cannot be written, the code still tells
            let _ = eprintln!(rt; "{program}: {error}");
            ExitCode::FAILURE
        }
    }
}
