//! The lines that standard error gets of words that are no command of `bench`, of an input or a file that is too large,
//! of bytes that end after `>FFFF`, and of a program without an entry; and their statuses.

ghost use Rattle.std.specs.Prelude.{◌≡◌};
ghost use Rattle.report_defs.specs.FaultLine as spec;

use report_defs::{Fault, Status};
use report_lines::{Line, line_of};

/// How `bench` is called, which knows no files and no `watch`.
const USAGE: &[u8] =
    b"usage: ti_bench asm|link|dis ADDR|exec N|gasm|gdis ADDR|interp|run N|trace N|demo K\n";

/// The line of a fault.
#[tactic(auto, unfolding(report_defs::specs::FaultLine::usage_line))]
pub(crate) fn fault_line(fault: Fault) -> Line
    ensures { result.items ≡ spec.fault_line fault }
{
    match fault {
        Fault::Usage => line_of(USAGE),
        Fault::TooLarge => line_of(b"too large\n"),
        Fault::PastEnd => line_of(b"past the end of memory\n"),
        Fault::NoEntry => line_of(b"no entry\n"),
    }
}

/// The status of a fault.
pub(crate) fn fault_status(fault: Fault) -> Status
    ensures { result ≡ spec.fault_status fault }
{
    match fault {
        Fault::Usage => Status::Usage,
        Fault::TooLarge | Fault::PastEnd | Fault::NoEntry => Status::Refused,
    }
}
