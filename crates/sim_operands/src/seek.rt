//! SEEK: the address of GROM.

ghost use Rattle.sim_view.specs.Prelude.{Exits, PortsAreIdle, SEEK, IsAt, view};
ghost use Rattle.sim_operands.specs.Subroutines.{after_seek};
ghost use Rattle.sim_operands.specs.Pieces as piece;

use sim_view::processor::{Machine, Steps};
use sim_view::run_piece;
use std::sync::ledger::Ledger;

/// The piece of SEEK.
pub fn seek_address<L: Ledger>(machine: &mut Machine, steps: &mut Steps<L>)
    requires { IsAt machine.old SEEK }
    ensures { Exits machine.old machine.new steps.old steps.new (piece.seek (view machine.old)) }
{
    run_piece(machine, steps, &[]);
}

/// Runs SEEK: GROM is set to the address in register 6, and so gives the byte there next. It takes 3 instructions,
/// changes nothing else, and returns to the address in register 11.
pub fn run_seek<L: Ledger>(machine: &mut Machine, steps: &mut Steps<L>)
    requires is_at { IsAt machine.old SEEK }
    requires idle { PortsAreIdle machine.old.cpu.memory }
    ensures { Exits machine.old machine.new steps.old steps.new (after_seek (view machine.old)) }
{
    seek_address(machine, steps);
}
