//! Boot, and the stop by a code byte.

ghost use Rattle.sim_rows.specs.Prelude.{Exits, PortsAreIdle, IsAt, view};
ghost use Rattle.sim_rows.specs.native_interp.declared.addresses.TheConstants as address;
ghost use Rattle.sim_steps.specs.Starting.{StartsProgram, booted};
ghost use Rattle.sim_steps.specs.Pieces as piece;

use sim_rows::labels::SEEK;
use sim_rows::processor::{Machine, Steps};
use sim_rows::run_piece;
use sim_rows::subroutines::seek_address;
use std::sync::ledger::Ledger;

/// The piece of boot: the stacks are made empty, and SEEK is asked for the entry.
pub fn boot<L: Ledger>(machine: &mut Machine, steps: &mut Steps<L>)
    requires { IsAt machine.old address.GBOOT }
    ensures { Exits machine.old machine.new steps.old steps.new (piece.boot (view machine.old)) }
{
    run_piece(machine, steps, &[SEEK]);
}

/// From boot to the first step: the machine matches the state in which a program begins whose entry is in register 0,
/// with empty stacks. It takes at most 10 instructions.
pub fn start_program<L: Ledger>(machine: &mut Machine, steps: &mut Steps<L>)
    requires is_at { IsAt machine.old address.GBOOT }
    requires idle { PortsAreIdle machine.old.cpu.memory }
    ensures { StartsProgram (booted (view machine.old)) 10 machine.old machine.new steps.old steps.new }
{
    boot(machine, steps);
    seek_address(machine, steps);
}

/// The piece of the stop by reason 1.
pub fn stop_code<L: Ledger>(machine: &mut Machine, steps: &mut Steps<L>)
    requires { IsAt machine.old address.UNKN }
    ensures { Exits machine.old machine.new steps.old steps.new (piece.stop_code (view machine.old)) }
{
    run_piece(machine, steps, &[]);
}
