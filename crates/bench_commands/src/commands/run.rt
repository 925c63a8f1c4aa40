//! `run`: a GPL program, run by the interpreter.

ghost use Rattle.std.specs.Prelude.{◌≤◌, length};
ghost use Rattle.report_defs.specs.Report as spec;
ghost use Rattle.reports.specs.Answers.{answer, WantsMemory, Reported};

use crate::commands::program::{load_program, run_session};
use report_defs::Command;
use reports::{CommandError, Report};
use std::alloc::Global;
use std::marker::Brand;
use std::sync::ledger::Blank;

/// The report of up to `limit` steps of a GPL source from its entry, run by the interpreter; or the source's first
/// refused line, or that it names no entry. Of an input of at most 1,048,576 bytes, `limit` may be any number.
///
/// # Errors
/// As [`load_program`].
pub fn run(alloc: Global, limit: u32, input: &[u8]) -> Result<Report, CommandError>
    requires { length input.now ≤ spec.largest_input }
    ensures { Reported (spec.AcceptedReport (Command.Run limit) input.now) WantsMemory (answer result) }
{
    let program = load_program(alloc, input)?;
    let (session, _) = run_session::<Brand>(program.machine, limit, Blank::new(1));
    Ok(Report::Program(session))
}
