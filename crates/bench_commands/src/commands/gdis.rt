//! `gdis`: bytes of GROM, listed as a GPL source.

ghost use Rattle.std.specs.Prelude.{◌≡◌, ◌≤◌, ◌+◌, length, IfOk};
ghost use Rattle.std.specs.FinMap.{empty};
ghost use Rattle.gpl_defs.specs.Image.{placed};
ghost use Rattle.report_defs.specs.Report as spec;
ghost use Rattle.reports.specs.Answers.{answer, WantsMemory, Reported};

use gpl_forms::GromImage;
use report_defs::{Command, Fault};
use reports::{CommandError, Report};
use std::alloc::{AllocError, Global};

/// The listing of bytes of GROM that begin at an address, unless they run past >FFFF.
pub(crate) fn gdis(alloc: Global, at: u16, input: &[u8]) -> Result<Report, CommandError>
    requires { length input.now ≤ spec.largest_input }
    ensures { Reported (spec.AcceptedReport (Command.Gdis at) input.now) WantsMemory (answer result) }
{
    if usize::from(at) + input.len() > 65536 {
        return Err(CommandError::Fault(Fault::PastEnd));
    }
    Ok(Report::Grom(image_of(alloc, at, input)?))
}

/// The image that holds these bytes from an address on, and no others.
fn image_of(alloc: Global, at: u16, bytes: &[u8]) -> Result<GromImage, AllocError>
    requires { at + length bytes.now ≤ 65536 }
    ensures { IfOk result (λ image. image ≡ placed empty at bytes.now) }
{
    let mut image = GromImage::new(alloc)?;
    image.put_all(at, bytes);
    Ok(image)
}
