//! `steps`, from an input to its report.

ghost use Rattle.std.specs.Prelude.{◌≤◌, length};
ghost use Rattle.report_defs.specs.Report.{largest_input};
ghost use Rattle.debug_commands.specs.Ends.{EndsInstructions};

use crate::shown::write_run;
use bench_commands::start_input;
use bench_io::Sink;
use machine_steps::Seen;
use report_defs::Status;
use reports::{end_status, finish};
use std::alloc::Global;
use step_changes::LongLine;

/// Executes up to `limit` instructions of the linked memory of an object text, from its entry on, and writes the line
/// of each once it is executed; then what `exec` writes, and the expansion memory. An input that is refused is answered
/// by its fault line. All memory is taken before the first byte is written.
pub fn steps<O: Sink, E: Sink>(
    alloc: Global,
    limit: u32,
    input: &[u8],
    out: &mut O,
    err: &mut E,
) -> Status
    requires { length input.now ≤ largest_input }
    ensures { EndsInstructions limit input.now (record {
      out = O.state out.old;
      out' = O.state out.new;
      err = E.state err.old;
      err' = E.state err.new;
    }) result }
{
    let mut machine = match start_input(alloc, input) {
        Ok(machine) => machine,
        Err(command_error) => return finish(&Err(command_error), out, err),
    };
    let mut seen = match Seen::new(alloc, &machine) {
        Ok(seen) => seen,
        Err(error) => return finish(&Err(error.into()), out, err),
    };
    let mut line = match LongLine::new(alloc) {
        Ok(line) => line,
        Err(error) => return finish(&Err(error.into()), out, err),
    };
    match write_run(&mut machine, &mut seen, &mut line, limit, out) {
        Ok(ending) => end_status(ending),
        Err(_) => Status::WriteFault,
    }
}
