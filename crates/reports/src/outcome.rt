//! How what a command answers is written.

ghost use Rattle.reports.specs.Answers.{answer, Ends};

use crate::command_error::CommandError;
use crate::report::Report;
use bench_io::Sink;
use report_defs::Status;

/// Writes a report to `out`, or to `err` the line of a refusal or a fault, and nothing where the input or the shelf
/// failed or memory ran out. It gives the status that the program ends with, which is a write fault where the
/// output failed. It takes no memory.
pub fn finish<O: Sink, E: Sink>(
    made: &Result<Report, CommandError>,
    out: &mut O,
    err: &mut E,
) -> Status
    ensures { Ends (record {
      out = O.state out.old;
      out' = O.state out.new;
      err = E.state err.old;
      err' = E.state err.new;
    }) (answer made.now) result }
{
    match made {
        Ok(report) => report.finish(out),
        Err(command_error) => command_error.finish(err),
    }
}
