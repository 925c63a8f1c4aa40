//! The pieces of where GROM goes on.

ghost use Rattle.sim_rows.specs.Prelude.{Exits, IsAt, view};
ghost use Rattle.sim_rows.specs.native_interp.declared.addresses.TheConstants as address;
ghost use Rattle.sim_jumps.specs.Pieces as piece;

use sim_rows::labels::{GOTO, SHOW};
use sim_rows::processor::{Machine, Steps};
use sim_rows::run_piece;
use std::sync::ledger::Ledger;

/// The piece that ends a step: GROM goes on at the address in register 6.
pub fn go_to<L: Ledger>(machine: &mut Machine, steps: &mut Steps<L>)
    requires { IsAt machine.old address.GOTO }
    ensures { Exits machine.old machine.new steps.old steps.new (piece.go_to (view machine.old)) }
{
    run_piece(machine, steps, &[]);
}

/// The piece of a branch that is taken, which clears the condition.
pub fn take_branch<L: Ledger>(machine: &mut Machine, steps: &mut Steps<L>)
    requires { IsAt machine.old address.TAKE }
    ensures { Exits machine.old machine.new steps.old steps.new (piece.take_branch (view machine.old)) }
{
    run_piece(machine, steps, &[GOTO]);
}

/// The piece of a row's end where GROM goes on at the address in register 14.
pub fn resume<L: Ledger>(machine: &mut Machine, steps: &mut Steps<L>)
    requires { IsAt machine.old address.RESUME }
    ensures { Exits machine.old machine.new steps.old steps.new (piece.resume (view machine.old)) }
{
    run_piece(machine, steps, &[SHOW]);
}
