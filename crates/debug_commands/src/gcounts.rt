//! `gcounts`: a GPL program, run by the interpreter, each of its steps with the count of the processor's instructions.

ghost use Rattle.std.specs.Prelude.{◌≤◌, length};
ghost use Rattle.report_defs.specs.Report.{largest_input};
ghost use Rattle.gpl_counts.specs.Counts.{most_shown_steps};
ghost use Rattle.debug_commands.specs.Gsteps.{EndsCounts};

use bench_commands::start_trace;
use bench_io::Sink;
use report_defs::Status;
use reports::finish;
use std::alloc::Global;
use trace_dump::Counts;

/// Runs up to `limit` steps of a GPL source and writes the line of each once it is made; then the program's end, its
/// last state and the dump. A source that is not run is answered by its fault line. All memory is taken before the
/// first byte is written.
pub(crate) fn gcounts<O: Sink, E: Sink>(
    alloc: Global,
    limit: u32,
    input: &[u8],
    out: &mut O,
    err: &mut E,
) -> Status
    requires size { length input.now ≤ largest_input }
    requires limit { limit ≤ most_shown_steps }
    ensures { EndsCounts limit input.now (record {
      out = O.state out.old;
      out' = O.state out.new;
      err = E.state err.old;
      err' = E.state err.new;
    }) result }
{
    match start_trace(alloc, limit, input) {
        Ok(trace) => trace.finish(&mut Counts::new(), out, err),
        Err(command_error) => finish(&Err(command_error), out, err),
    }
}
