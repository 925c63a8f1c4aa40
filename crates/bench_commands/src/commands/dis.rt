//! `dis`: raw bytes, listed as assembler source.

ghost use Rattle.std.specs.Prelude.{◌≤◌, vec_len};
ghost use Rattle.report_defs.specs.Report as spec;
ghost use Rattle.reports.specs.Answers.{answer, NeverFails, Reported};

use report_defs::{Command, Fault};
use reports::{CommandError, Listing, Report};

/// The listing of raw bytes that begin at an address, unless they run past >FFFF.
pub(crate) fn dis(at: u16, input: Vec<u8>) -> Result<Report, CommandError>
    requires { vec_len input ≤ spec.largest_input }
    ensures { Reported (spec.AcceptedReport (Command.Dis at) input.items) NeverFails (answer result) }
{
    if usize::from(at) + input.len() > 65536 {
        return Err(CommandError::Fault(Fault::PastEnd));
    }
    Ok(Report::Listing(Listing { at, bytes: input }))
}
