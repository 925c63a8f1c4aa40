//! The commands, each by what it makes of its input.

mod asm;
mod demo;
mod dis;
pub(crate) mod exec;
mod gasm;
mod gdis;
mod interp;
mod link;
pub(crate) mod program;
pub(crate) mod run;
pub(crate) mod trace;

ghost use Rattle.std.specs.Prelude.{◌≤◌, vec_len};
ghost use Rattle.report_defs.specs.Commands.{KeepsLimit};
ghost use Rattle.report_defs.specs.Report.{largest_input};
ghost use Rattle.bench_commands.specs.Traced.{Prepares};

use crate::commands::asm::asm;
use crate::commands::demo::demo;
use crate::commands::dis::dis;
use crate::commands::exec::exec;
use crate::commands::gasm::gasm;
use crate::commands::gdis::gdis;
use crate::commands::interp::interp;
use crate::commands::link::link;
use crate::commands::run::run;
use crate::commands::trace::trace;
use crate::prepared::Prepared;
use report_defs::Command;
use reports::CommandError;
use std::alloc::Global;

/// What a command makes of an input that is not too large.
pub(crate) fn prepare(
    alloc: Global,
    command: Command,
    input: Vec<u8>,
) -> Result<Prepared, CommandError>
    requires size { vec_len input ≤ largest_input }
    requires limit { KeepsLimit command }
    ensures { Prepares command input.items result }
{
    let report = match command {
        Command::Asm => asm(alloc, input.as_slice()),
        Command::Gasm => gasm(alloc, input.as_slice()),
        Command::Dis { at } => dis(at, input),
        Command::Gdis { at } => gdis(alloc, at, input.as_slice()),
        Command::Link => link(alloc, input.as_slice()),
        Command::Exec { limit } => exec(alloc, limit, input.as_slice()),
        Command::Interp => interp(alloc),
        Command::Run { limit } => run(alloc, limit, input.as_slice()),
        Command::Demo { number } => demo(alloc, number),
        Command::Trace { limit } => return trace(alloc, limit, input.as_slice()),
    };
    Ok(Prepared::Report(report?))
}
