//! `interp`: the memory of the interpreter, as it is built from its source.

ghost use Rattle.report_defs.specs.Report as spec;
ghost use Rattle.reports.specs.Answers.{answer, WantsMemory, Reported};

use gpl_run::build_interp;
use reports::{CommandError, Report};
use std::alloc::Global;

/// The listing of the interpreter's memory.
pub(crate) fn interp(alloc: Global) -> Result<Report, CommandError>
    ensures { Reported spec.ReportsInterpreter WantsMemory (answer result) }
{
    Ok(Report::Memory(build_interp(alloc)?))
}
