//! Jumps, from where their address is known to the end of the step.

ghost use Rattle.sim_rows.specs.Prelude.{Exits, PortsAreIdle, IsAt, view};
ghost use Rattle.sim_jumps.specs.Jumps.{GoesOn, ResumesRow, TakesBranch};
ghost use Rattle.sim_rows.specs.native_interp.declared.addresses.TheConstants as address;
ghost use Rattle.sim_jumps.specs.Routines as routine;

use crate::pieces::{go_to, resume, take_branch};
use sim_rows::end_row_routine;
use sim_rows::processor::{Machine, Steps};
use std::sync::ledger::Ledger;

/// Ends a step that goes on at the address in register 6.
pub fn jump<L: Ledger>(machine: &mut Machine, steps: &mut Steps<L>)
    requires { IsAt machine.old address.GOTO }
    ensures { GoesOn machine.old machine.new steps.old steps.new }
{
    go_to(machine, steps);
}

/// Clears the condition, and ends a step that goes on at the address in register 6.
pub fn take_jump<L: Ledger>(machine: &mut Machine, steps: &mut Steps<L>)
    requires { IsAt machine.old address.TAKE }
    ensures { TakesBranch machine.old machine.new steps.old steps.new }
{
    take_branch(machine, steps);
    jump(machine, steps);
}

/// RESUME, whole: GROM goes on at the address in register 14, and the row ends.
pub fn resume_row_routine<L: Ledger>(machine: &mut Machine, steps: &mut Steps<L>)
    requires { IsAt machine.old address.RESUME }
    ensures { Exits machine.old machine.new steps.old steps.new (routine.resume_row (view machine.old)) }
{
    resume(machine, steps);
    end_row_routine(machine, steps);
}

/// Ends a row whose results are stored, and which goes on at the address in register 14: the character goes to the
/// screen if a byte was stored at its cell.
pub fn resume_row<L: Ledger>(machine: &mut Machine, steps: &mut Steps<L>)
    requires is_at { IsAt machine.old address.RESUME }
    requires idle { PortsAreIdle machine.old.cpu.memory }
    ensures { ResumesRow machine.old machine.new steps.old steps.new }
{
    resume_row_routine(machine, steps);
}
