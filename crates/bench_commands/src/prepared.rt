//! What a command has made before anything is written.

ghost use Rattle.bench_commands.specs.Traced.{CanFinish, Finishes};

use crate::trace::Trace;
use bench_io::Sink;
use report_defs::Status;
use reports::{Report, finish};
use trace_dump::FirstChanges;

/// What a command has made. Nothing takes memory from here on.
#[derive(Drop)]
pub(crate) enum Prepared {
    /// A report.
    Report(Report),
    /// A GPL program, whose steps are made and shown one by one.
    Trace(Trace),
}

impl Prepared {
    /// Writes the report, and gives the status that the program ends with: the report's own, or a write fault.
    pub(crate) fn finish<O: Sink, E: Sink>(self, out: &mut O, err: &mut E) -> Status
        requires { CanFinish self }
        ensures { Finishes (record {
          out = O.state out.old;
          out' = O.state out.new;
          err = E.state err.old;
          err' = E.state err.new;
        }) self result }
    {
        match self {
            Prepared::Report(report) => finish(&Ok(report), out, err),
            Prepared::Trace(trace) => trace.finish(&mut FirstChanges::new(), out, err),
        }
    }
}
