//! A run of the machine, shown while it runs.

ghost use Rattle.std.specs.Prelude.{◌≡◌, ◌≤◌};
ghost use Rattle.machine_change_defs.specs.Seen.{seen_memory};
ghost use Rattle.machine_steps.specs.Shown.{ShowsRun};

use crate::changes::append_changes;
use crate::front::step_front;
use crate::reach::reach_of;
use crate::seen::Seen;
use bench_io::{Failed, Sink, put_chunk};
use console_defs::RunEnd;
use step_changes::LongLine;
use tms_defs::StepEnd;
use tms_step::Machine;

/// The word of a jump to itself.
const SELF_JUMP: u16 = 0x10FF;

/// Executes up to `limit` instructions, up to the first end of a run, and writes the line of each, by one call, once it
/// is executed. What is kept in `seen` is what the machine shows, before and after. No memory is taken.
///
/// # Errors
/// `Failed` means that a line could not be written: the lines of the instructions before it were, and a front of it.
/// The sink's count of faults rose, and the machine is as it was after the instruction of that line.
pub fn show_run<O: Sink>(
    machine: &mut Machine,
    seen: &mut Seen,
    line: &mut LongLine,
    limit: u32,
    out: &mut O,
) -> Result<RunEnd, Failed>
    requires kept { seen.old ≡ seen_memory machine.old.cpu.memory }
    ensures shows { ShowsRun limit machine.old machine.new (O.state out.old) (O.state out.new) result }
    ensures kept { seen.new ≡ seen_memory machine.new.cpu.memory }
{
    for made in 0..limit {
        line.clear();
        line.append(step_front(machine, made + 1).as_slice());
        let wp = machine.wp();
        match machine.step() {
            StepEnd::Done(word) => {
                append_changes(line, reach_of(word), wp, seen, machine.bus());
                put_chunk(out, line.bytes())?;
                if word == SELF_JUMP {
                    return Ok(RunEnd::SelfJump);
                }
            }
            StepEnd::Refused(address) => return Ok(RunEnd::Refused(address)),
            StepEnd::Port(address) => return Ok(RunEnd::Port(address)),
        }
    }
    Ok(RunEnd::Limit)
}
