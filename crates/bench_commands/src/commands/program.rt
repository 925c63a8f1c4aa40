//! A GPL program for the interpreter: assembled from its source, loaded, and run.

ghost use Rattle.std.specs.Prelude.{◌≡◌, ◌<◌, ◌≤◌, length};
ghost use Rattle.gpl_run.specs.Sessions.{IsNew, image_of, entry_of};
ghost use Rattle.gpl_source_defs.specs.Programs.{program_of_source};
ghost use Rattle.report_defs.specs.Report.{largest_input};
ghost use Rattle.bench_commands.specs.Loaded.{LoadsSource, LoadsImage};
ghost use Rattle.bench_commands.specs.Ran.{RanProgram};

use gpl_asm::gpl_assemble;
use gpl_forms::GromImage;
use gpl_run::{Session, build_interp, load_interpreter};
use report_defs::Fault;
use reports::CommandError;
use std::alloc::Global;
use std::sync::ledger::{Blank, Ledger};
use tms_step::{Machine, Steps};

/// A GPL program before its first step.
#[derive(Drop)]
pub struct LoadedProgram {
    /// A machine on which the interpreter begins, with the program and its entry.
    pub machine: Machine,
    /// How many bytes the program's image has.
    pub image_size: u64,
}

/// Assembles a GPL source of at most 1,048,576 bytes and loads it with the interpreter, which is built once the source
/// is accepted and names an entry.
///
/// # Errors
/// `Refused` comes where the source is refused, and `Fault` where it names no entry; `Memory` means that memory ran
/// out. `ReadFault` never comes.
pub fn load_program(alloc: Global, input: &[u8]) -> Result<LoadedProgram, CommandError>
    requires { length input.now ≤ largest_input }
    ensures { LoadsSource (program_of_source input.now) result }
{
    let program = gpl_assemble(alloc, input)?;
    load_image(alloc, &program.image, program.entry)
}

/// Loads an image with the interpreter, unless it has no entry.
fn load_image(
    alloc: Global,
    image: &GromImage,
    entry: Option<u16>,
) -> Result<LoadedProgram, CommandError>
    ensures { LoadsImage image.now entry result }
{
    let Some(entry) = entry else {
        return Err(CommandError::Fault(Fault::NoEntry));
    };
    let interpreter = build_interp(alloc)?;
    Ok(LoadedProgram {
        machine: load_interpreter(alloc, &interpreter, image.bytes(), entry)?,
        image_size: image.written().len() as u64,
    })
}

/// Up to `limit` steps of the program that a machine holds on which the interpreter begins, and how many were made.
pub(crate) fn run_session<L: Ledger>(machine: Machine, limit: u32, blank: Blank) -> (Session, u32)
    requires name { blank.name ≡ L.name }
    requires parts { blank.parts ≡ L.parts }
    requires some { 0 < L.parts }
    requires new { IsNew machine }
    ensures { RanProgram (image_of machine) (entry_of machine) limit result.0 result.1 }
{
    let mut steps = Steps::<L>::new(blank);
    machine.holds_bounds();
    let mut session = Session::new(machine, &mut steps);
    let made = session.run(limit, &mut steps);
    session.machine().holds_bounds();
    (session, made)
}
