//! The pieces of the comparisons and the tests.

ghost use Rattle.sim_rows.specs.Prelude.{Exits, IsAt, view};
ghost use Rattle.sim_rows.specs.native_interp.declared.addresses.TheConstants as address;
ghost use Rattle.sim_compare.specs.Pieces as piece;

use sim_rows::labels::{CFALSE, CTRUE};
use sim_rows::processor::{Machine, Steps};
use sim_rows::run_piece;
use std::sync::ledger::Ledger;

/// The piece of CH.
pub fn compare_higher<L: Ledger>(machine: &mut Machine, steps: &mut Steps<L>)
    requires { IsAt machine.old address.CHV }
    ensures { Exits machine.old machine.new steps.old steps.new (piece.compare_higher (view machine.old)) }
{
    run_piece(machine, steps, &[CTRUE, CFALSE]);
}

/// The piece of CHE.
pub fn compare_higher_or_equal<L: Ledger>(machine: &mut Machine, steps: &mut Steps<L>)
    requires { IsAt machine.old address.CHEV }
    ensures { Exits machine.old machine.new steps.old steps.new (piece.compare_higher_or_equal (view machine.old)) }
{
    run_piece(machine, steps, &[CTRUE, CFALSE]);
}

/// The piece of CGT.
pub fn compare_greater<L: Ledger>(machine: &mut Machine, steps: &mut Steps<L>)
    requires { IsAt machine.old address.CGTV }
    ensures { Exits machine.old machine.new steps.old steps.new (piece.compare_greater (view machine.old)) }
{
    run_piece(machine, steps, &[CTRUE, CFALSE]);
}

/// The piece of CGE.
pub fn compare_greater_or_equal<L: Ledger>(machine: &mut Machine, steps: &mut Steps<L>)
    requires { IsAt machine.old address.CGEV }
    ensures { Exits machine.old machine.new steps.old steps.new (piece.compare_greater_or_equal (view machine.old)) }
{
    run_piece(machine, steps, &[CTRUE, CFALSE]);
}

/// The piece of CEQ.
pub fn compare_equal<L: Ledger>(machine: &mut Machine, steps: &mut Steps<L>)
    requires { IsAt machine.old address.CEQV }
    ensures { Exits machine.old machine.new steps.old steps.new (piece.compare_equal (view machine.old)) }
{
    run_piece(machine, steps, &[CTRUE, CFALSE]);
}

/// The piece of CLOG.
pub fn compare_ones<L: Ledger>(machine: &mut Machine, steps: &mut Steps<L>)
    requires { IsAt machine.old address.CLOGV }
    ensures { Exits machine.old machine.new steps.old steps.new (piece.compare_ones (view machine.old)) }
{
    run_piece(machine, steps, &[CTRUE, CFALSE]);
}

/// The piece of CZ.
pub fn compare_with_zero<L: Ledger>(machine: &mut Machine, steps: &mut Steps<L>)
    requires { IsAt machine.old address.CZV }
    ensures { Exits machine.old machine.new steps.old steps.new (piece.compare_with_zero (view machine.old)) }
{
    run_piece(machine, steps, &[CTRUE, CFALSE]);
}

/// The piece that sets the condition.
pub fn set_condition<L: Ledger>(machine: &mut Machine, steps: &mut Steps<L>)
    requires { IsAt machine.old address.CTRUE }
    ensures { Exits machine.old machine.new steps.old steps.new (piece.set_condition (view machine.old)) }
{
    run_piece(machine, steps, &[]);
}

/// The piece that clears the condition.
pub fn clear_condition<L: Ledger>(machine: &mut Machine, steps: &mut Steps<L>)
    requires { IsAt machine.old address.CFALSE }
    ensures { Exits machine.old machine.new steps.old steps.new (piece.clear_condition (view machine.old)) }
{
    run_piece(machine, steps, &[]);
}

/// The piece of H.
pub fn test_higher<L: Ledger>(machine: &mut Machine, steps: &mut Steps<L>)
    requires { IsAt machine.old address.GOH }
    ensures { Exits machine.old machine.new steps.old steps.new (piece.test_higher (view machine.old)) }
{
    run_piece(machine, steps, &[CTRUE, CFALSE]);
}

/// The piece of GT.
pub fn test_greater<L: Ledger>(machine: &mut Machine, steps: &mut Steps<L>)
    requires { IsAt machine.old address.GOGT }
    ensures { Exits machine.old machine.new steps.old steps.new (piece.test_greater (view machine.old)) }
{
    run_piece(machine, steps, &[CTRUE, CFALSE]);
}

/// The piece of CARRY.
pub fn test_carry<L: Ledger>(machine: &mut Machine, steps: &mut Steps<L>)
    requires { IsAt machine.old address.GOCARY }
    ensures { Exits machine.old machine.new steps.old steps.new (piece.test_carry (view machine.old)) }
{
    run_piece(machine, steps, &[CTRUE, CFALSE]);
}

/// The piece of OVF.
pub fn test_overflow<L: Ledger>(machine: &mut Machine, steps: &mut Steps<L>)
    requires { IsAt machine.old address.GOOVF }
    ensures { Exits machine.old machine.new steps.old steps.new (piece.test_overflow (view machine.old)) }
{
    run_piece(machine, steps, &[CTRUE, CFALSE]);
}
