//! RTN and RTNC: the program goes on at the return address that was stored last.

ghost use Rattle.sim_rows.specs.Prelude.{Exits, IsAt, view};
ghost use Rattle.sim_rows.specs.native_interp.declared.addresses.TheConstants as address;
ghost use Rattle.sim_stack.specs.Rows as row;

use crate::pieces::take_return;
use sim_jumps::{go_to, take_branch};
use sim_rows::labels::{GSTOP, TAKE};
use sim_rows::processor::{Machine, Steps};
use std::sync::ledger::Ledger;

/// Runs RTN and RTNC from their dispatch to the end of the step. RTN clears the condition.
pub fn run_return<L: Ledger>(machine: &mut Machine, steps: &mut Steps<L>)
    requires { IsAt machine.old address.GORTN }
    ensures { Exits machine.old machine.new steps.old steps.new (row.returned (view machine.old)) }
{
    take_return(machine, steps);
    if machine.pc() == TAKE {
        take_branch(machine, steps);
        go_to(machine, steps);
    } else if machine.pc() != GSTOP {
        go_to(machine, steps);
    }
}
