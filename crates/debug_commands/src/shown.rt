//! A machine that is shown while it runs.

ghost use Rattle.std.specs.Prelude.{◌≡◌, ◌++◌};
ghost use Rattle.bench_io.specs.Written.{Written};
ghost use Rattle.report_defs.specs.Exec.{exec_lines};
ghost use Rattle.machine_change_defs.specs.Lines.{expansion_lines};
ghost use Rattle.machine_change_defs.specs.Seen.{seen_memory};
ghost use Rattle.debug_commands.specs.Written.{Writes};

use bench_io::{Failed, Sink};
use console_defs::RunEnd;
use machine_steps::{Seen, put_expansion, show_run};
use reports::put_execution;
use step_changes::LongLine;
use tms_step::Machine;

/// Executes up to `limit` instructions and writes the line of each once it is executed; then what `exec` writes, and
/// the expansion memory. No memory is taken.
///
/// # Errors
/// `Failed` means that a line could not be written.
pub(crate) fn write_run<O: Sink>(
    machine: &mut Machine,
    seen: &mut Seen,
    line: &mut LongLine,
    limit: u32,
    out: &mut O,
) -> Result<RunEnd, Failed>
    requires { seen.old ≡ seen_memory machine.old.cpu.memory }
    ensures { Writes limit machine.old machine.new (O.state out.old) (O.state out.new) result }
{
    let ending = show_run(machine, seen, line, limit, out)?;
    put_left(ending, machine, out)?;
    Ok(ending)
}

/// Writes how a run ended, the machine that it left, and its expansion memory.
#[tactic(auto, using(bench_io::proofs::Writes::written_more, bench_io::proofs::Writes::missed_early))]
fn put_left<O: Sink>(ending: RunEnd, machine: &Machine, out: &mut O) -> Result<(), Failed>
    ensures { Written result (O.state out.old) (O.state out.new)
        (exec_lines ending machine.now ++ expansion_lines machine.now.cpu.memory) }
{
    put_execution(out, ending, machine)?;
    put_expansion(machine.bus(), out)
}
