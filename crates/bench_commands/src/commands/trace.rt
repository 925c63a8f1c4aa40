//! `trace`: a GPL program, run by the interpreter, each of its steps with a line.

ghost use Rattle.std.specs.Prelude.{◌≡◌, ◌<◌, ◌≤◌, length};
ghost use Rattle.gpl_run.specs.Sessions.{IsNew};
ghost use Rattle.report_defs.specs.Report.{largest_input};
ghost use Rattle.report_defs.specs.Commands.{most_steps};
ghost use Rattle.gpl_counts.specs.Counts.{most_shown_steps};
ghost use Rattle.bench_commands.specs.Traced.{Prepares, Started, StartsTrace};

use crate::commands::program::load_program;
use crate::prepared::Prepared;
use crate::trace::Trace;
use gpl_run::Session;
use report_defs::Command;
use reports::CommandError;
use std::alloc::Global;
use std::marker::Brand;
use std::sync::ledger::{Blank, Ledger};
use tms_step::{Machine, Steps};
use trace_dump::Seen;

/// A GPL source that is before the first step of its program, of which up to `limit` are to be traced; or why
/// it is not run. All memory of the trace is taken.
pub(crate) fn trace(alloc: Global, limit: u32, input: &[u8]) -> Result<Prepared, CommandError>
    requires size { length input.now ≤ largest_input }
    requires limit { limit ≤ most_steps }
    ensures { Prepares (Command.Trace limit) input.now result }
{
    Ok(Prepared::Trace(start_trace(alloc, limit, input)?))
}

/// A GPL source before the first step of its program, of which up to `limit` are to be shown; or why it is not run. No
/// memory is taken later, but for the lines.
///
/// # Errors
/// As [`load_program`].
pub fn start_trace(alloc: Global, limit: u32, input: &[u8]) -> Result<Trace, CommandError>
    requires size { length input.now ≤ largest_input }
    requires limit { limit ≤ most_shown_steps }
    ensures { StartsTrace limit input.now result }
{
    let program = load_program(alloc, input)?;
    let session = start_session::<Brand>(program.machine, Blank::new(1));
    let seen = Seen::new(alloc, session.machine())?;
    Ok(Trace {
        session,
        seen,
        limit,
    })
}

/// The program that a machine holds on which the interpreter begins, before its first step.
fn start_session<L: Ledger>(machine: Machine, blank: Blank) -> Session
    requires name { blank.name ≡ L.name }
    requires parts { blank.parts ≡ L.parts }
    requires some { 0 < L.parts }
    requires new { IsNew machine }
    ensures { Started machine result }
{
    let mut steps = Steps::<L>::new(blank);
    machine.holds_bounds();
    Session::new(machine, &mut steps)
}
