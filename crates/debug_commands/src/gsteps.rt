//! `gsteps`: a GPL program, run by the interpreter, each of its steps with a line of all that it changed.

ghost use Rattle.std.specs.Prelude.{◌≤◌, length};
ghost use Rattle.report_defs.specs.Report.{largest_input};
ghost use Rattle.gpl_counts.specs.Counts.{most_shown_steps};
ghost use Rattle.debug_commands.specs.Gsteps.{EndsSteps};

use bench_commands::start_trace;
use bench_io::Sink;
use report_defs::Status;
use reports::finish;
use std::alloc::Global;
use trace_dump::AllChanges;

/// Runs up to `limit` steps of a GPL source and writes the line of each once it is made; then the program's end, its
/// last state and the dump. A source that is not run is answered by its fault line. All memory is taken before the
/// first byte is written.
pub(crate) fn gsteps<O: Sink, E: Sink>(
    alloc: Global,
    limit: u32,
    input: &[u8],
    out: &mut O,
    err: &mut E,
) -> Status
    requires size { length input.now ≤ largest_input }
    requires limit { limit ≤ most_shown_steps }
    ensures { EndsSteps limit input.now (record {
      out = O.state out.old;
      out' = O.state out.new;
      err = E.state err.old;
      err' = E.state err.new;
    }) result }
{
    let trace = match start_trace(alloc, limit, input) {
        Ok(trace) => trace,
        Err(command_error) => return finish(&Err(command_error), out, err),
    };
    match AllChanges::new(alloc) {
        Ok(mut line) => trace.finish(&mut line, out, err),
        Err(error) => finish(&Err(error.into()), out, err),
    }
}
