//! `link`: the memory of an object text's modules.

ghost use Rattle.std.specs.Prelude.{◌≤◌, length};
ghost use Rattle.report_defs.specs.Report as spec;
ghost use Rattle.reports.specs.Answers.{answer, WantsMemory, Reported};

use crate::object_input::link_input;
use report_defs::Command;
use reports::{CommandError, Report};
use std::alloc::Global;

/// The listing of the linked memory of an object text, or the line that says why there is none.
pub(crate) fn link(alloc: Global, input: &[u8]) -> Result<Report, CommandError>
    requires { length input.now ≤ spec.largest_input }
    ensures { Reported (spec.AcceptedReport Command.Link input.now) WantsMemory (answer result) }
{
    Ok(Report::Memory(link_input(alloc, input)?))
}
