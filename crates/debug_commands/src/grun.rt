//! `grun`: a GPL program, run by the interpreter.

ghost use Rattle.std.specs.Prelude.{◌≤◌, length};
ghost use Rattle.report_defs.specs.Report.{AcceptedReport, largest_input};
ghost use Rattle.debug_commands.specs.Answered.{EndsAnswered};

use bench_commands::run;
use bench_io::Sink;
use report_defs::{Command, Status};
use reports::finish;
use std::alloc::Global;

/// Runs up to `limit` steps of a GPL source, and writes what `run` of `ti_bench` writes. A source that is not run is
/// answered by its fault line. All memory is taken before the first byte is written.
pub(crate) fn grun<O: Sink, E: Sink>(
    alloc: Global,
    limit: u32,
    input: &[u8],
    out: &mut O,
    err: &mut E,
) -> Status
    requires { length input.now ≤ largest_input }
    ensures { EndsAnswered (AcceptedReport (Command.Run limit) input.now) (record {
      out = O.state out.old;
      out' = O.state out.new;
      err = E.state err.old;
      err' = E.state err.new;
    }) result }
{
    finish(&run(alloc, limit, input), out, err)
}
