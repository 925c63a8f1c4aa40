//! What is taken of the input.

ghost use Rattle.std.specs.Prelude.{◌≡◌, IsTrue, IfOk, IfErr, OnErr};
ghost use Rattle.report_defs.specs.Commands as spec;
ghost use Rattle.report_defs.specs.Report.{largest_input};
ghost use Rattle.bench_io.specs.ReadAll.{GaveUp};
ghost use Rattle.bench_commands.specs.InputRun.{TakesWhole};

use bench_io::{ReadError, Source, read_all};
use report_defs::{Command, LARGEST_INPUT};
use std::alloc::Global;

/// The whole input of a command that reads it, and nothing of it for another.
pub(crate) fn take_input<S: Source>(
    alloc: Global,
    command: Command,
    input: &mut S,
) -> Result<Vec<u8>, ReadError>
    ensures ok { IfOk result (λ bytes.
        TakesWhole (spec.reads command) (S.state input.old) (S.state input.new) bytes.items) }
    ensures reading { OnErr result (IsTrue (spec.reads command)) }
    ensures err { IfErr result (λ error. GaveUp error largest_input (S.state input.old) (S.state input.new)) }
{
    if !reads(command) {
        return Ok(Vec::new(alloc));
    }
    read_all(alloc, input, LARGEST_INPUT)
}

/// Whether a command reads the input.
fn reads(command: Command) -> bool
    ensures { result ≡ spec.reads command }
{
    match command {
        Command::Interp | Command::Demo { .. } => false,
        _ => true,
    }
}
