//! `gasm`: the image of a GPL source.

ghost use Rattle.std.specs.Prelude.{◌≤◌, length};
ghost use Rattle.report_defs.specs.Report as spec;
ghost use Rattle.reports.specs.Answers.{answer, WantsMemory, Reported};

use gpl_asm::gpl_assemble;
use report_defs::Command;
use reports::{CommandError, Report};
use std::alloc::Global;

/// The image of a GPL source, or its first refused line.
pub(crate) fn gasm(alloc: Global, input: &[u8]) -> Result<Report, CommandError>
    requires { length input.now ≤ spec.largest_input }
    ensures { Reported (spec.AcceptedReport Command.Gasm input.now) WantsMemory (answer result) }
{
    Ok(Report::Image(gpl_assemble(alloc, input)?.image))
}
