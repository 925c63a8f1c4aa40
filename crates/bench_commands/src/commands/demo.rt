//! `demo`: a GPL program that is made from a number, run by the interpreter.

ghost use Rattle.std.specs.Prelude.{◌≤◌, [], length};
ghost use Rattle.gpl_source_defs.specs.Programs.{program_of_source};
ghost use Rattle.report_defs.specs.Commands.{most_blocks, most_steps};
ghost use Rattle.report_defs.specs.Report as spec;
ghost use Rattle.reports.specs.Answers.{answer, WantsMemory, Reported};

use crate::commands::program::{load_program, run_session};
use demo_program::{demo_text, summarize};
use report_defs::{Command, MOST_STEPS};
use reports::{CommandError, Report};
use std::alloc::Global;
use std::marker::Brand;
use std::sync::ledger::Blank;

/// The summary of the program that is made from a number, which runs from its entry; or why the program is refused.
pub(crate) fn demo(alloc: Global, number: u32) -> Result<Report, CommandError>
    requires { number ≤ most_blocks }
    ensures { Reported (spec.AcceptedReport (Command.Demo number) []) WantsMemory (answer result) }
{
    let text = demo_text(alloc, number)?;
    run_source(alloc, number, text.as_slice())
}

/// The summary of the program of a source that was made from a number, or why it is not run.
fn run_source(alloc: Global, number: u32, source: &[u8]) -> Result<Report, CommandError>
    requires { length source.now ≤ spec.largest_input }
    ensures { Reported (spec.ProgramReport (spec.ReportsProgram (spec.demo_lines number) most_steps)
        (program_of_source source.now)) WantsMemory (answer result) }
{
    let program = load_program(alloc, source)?;
    let (session, made) = run_session::<Brand>(program.machine, MOST_STEPS, Blank::new(1));
    Ok(Report::Demo(summarize(
        number,
        program.image_size,
        made,
        session.ended(),
        session.machine(),
    )))
}
