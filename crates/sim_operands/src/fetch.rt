//! FETCH: the next GPL byte.

ghost use Rattle.sim_view.specs.Prelude.{Exits, FETCH, IsFetched, PortsAreIdle, IsAt, view};
ghost use Rattle.sim_operands.specs.Subroutines.{fetched};
ghost use Rattle.sim_operands.specs.Pieces as piece;

use sim_view::processor::{Machine, Steps};
use sim_view::run_piece;
use std::sync::ledger::Ledger;

/// The piece of FETCH.
pub fn fetch_byte<L: Ledger>(machine: &mut Machine, steps: &mut Steps<L>)
    requires { IsAt machine.old FETCH }
    ensures { Exits machine.old machine.new steps.old steps.new (piece.fetch (view machine.old)) }
{
    run_piece(machine, steps, &[]);
}

/// Runs FETCH: the next GPL byte comes into the high half of register 6, with 0 below it, and GROM goes on by one. It
/// takes 3 instructions, changes nothing else, and returns to the address in register 11.
pub fn run_fetch<L: Ledger>(machine: &mut Machine, steps: &mut Steps<L>)
    requires is_at { IsAt machine.old FETCH }
    requires idle { PortsAreIdle machine.old.cpu.memory }
    requires fetched { IsFetched machine.old.cpu.memory.grom }
    ensures { Exits machine.old machine.new steps.old steps.new (fetched (view machine.old)) }
{
    fetch_byte(machine, steps);
}
