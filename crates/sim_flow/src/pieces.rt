//! The pieces of EXIT, B, BR, BS and CASE.

ghost use Rattle.sim_rows.specs.Prelude.{Exits, IsAt, view};
ghost use Rattle.sim_rows.specs.native_interp.declared.addresses.TheConstants as address;
ghost use Rattle.sim_flow.specs.Pieces as piece;

use sim_rows::labels::{BTARG, CFALSE, GOTO, SEEK, TAKE, WHERE};
use sim_rows::processor::{Machine, Steps};
use sim_rows::run_piece;
use std::sync::ledger::Ledger;

/// The piece of EXIT.
pub fn leave<L: Ledger>(machine: &mut Machine, steps: &mut Steps<L>)
    requires { IsAt machine.old address.GOEXIT }
    ensures { Exits machine.old machine.new steps.old steps.new (piece.leave (view machine.old)) }
{
    run_piece(machine, steps, &[]);
}

/// The piece of B that reads the address.
pub fn read_target<L: Ledger>(machine: &mut Machine, steps: &mut Steps<L>)
    requires { IsAt machine.old address.GOB }
    ensures { Exits machine.old machine.new steps.old steps.new (piece.read_target (view machine.old)) }
{
    run_piece(machine, steps, &[GOTO]);
}

/// The piece of BR and BS that tests the condition.
pub fn test_branch<L: Ledger>(machine: &mut Machine, steps: &mut Steps<L>)
    requires { IsAt machine.old address.BRANCH }
    ensures { Exits machine.old machine.new steps.old steps.new (piece.test_branch (view machine.old)) }
{
    run_piece(machine, steps, &[BTARG, CFALSE]);
}

/// The piece of BR and BS that makes the address of their target.
pub fn read_branch_target<L: Ledger>(machine: &mut Machine, steps: &mut Steps<L>)
    requires { IsAt machine.old address.BTARG }
    ensures { Exits machine.old machine.new steps.old steps.new (piece.read_branch_target (view machine.old)) }
{
    run_piece(machine, steps, &[TAKE]);
}

/// The piece of CASE that takes its number and asks WHERE for the address of the table.
pub fn request_table<L: Ledger>(machine: &mut Machine, steps: &mut Steps<L>)
    requires { IsAt machine.old address.CASEV }
    ensures { Exits machine.old machine.new steps.old steps.new (piece.request_table (view machine.old)) }
{
    run_piece(machine, steps, &[WHERE]);
}

/// The piece of CASE that makes the address in the table and asks SEEK for its beginning.
pub fn find_branch<L: Ledger>(machine: &mut Machine, steps: &mut Steps<L>)
    requires { IsAt machine.old address.CASEN }
    ensures { Exits machine.old machine.new steps.old steps.new (piece.find_branch (view machine.old)) }
{
    run_piece(machine, steps, &[SEEK]);
}

/// The piece of CASE that goes on as a branch that is taken.
pub fn go_to_branch<L: Ledger>(machine: &mut Machine, steps: &mut Steps<L>)
    requires { IsAt machine.old address.CASET }
    ensures { Exits machine.old machine.new steps.old steps.new (piece.go_to_branch (view machine.old)) }
{
    run_piece(machine, steps, &[TAKE]);
}
