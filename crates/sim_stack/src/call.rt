//! CALL: the address after the call goes on the stack of return addresses.

ghost use Rattle.sim_rows.specs.Prelude.{Exits, IsAt, view};
ghost use Rattle.sim_rows.specs.native_interp.declared.addresses.TheConstants as address;
ghost use Rattle.sim_stack.specs.Rows as row;

use crate::pieces::{find_next, read_call_target, store_next};
use sim_rows::end_row_routine;
use sim_rows::labels::GSTOP;
use sim_rows::processor::{Machine, Steps};
use std::sync::ledger::Ledger;

/// Runs CALL from its dispatch to the end of the step.
pub fn run_call<L: Ledger>(machine: &mut Machine, steps: &mut Steps<L>)
    requires { IsAt machine.old address.GOCALL }
    ensures { Exits machine.old machine.new steps.old steps.new (row.called (view machine.old)) }
{
    read_call_target(machine, steps);
    if machine.pc() == GSTOP {
        return;
    }
    find_next(machine, steps);
    store_next(machine, steps);
    end_row_routine(machine, steps);
}
