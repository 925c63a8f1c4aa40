//! Setting and clearing the condition.

ghost use Rattle.std.specs.Prelude.{◌==◌};
ghost use Rattle.sim_rows.specs.Prelude.{Exits, view};
ghost use Rattle.sim_compare.specs.Family.{ending, IsDecided};
ghost use Rattle.sim_rows.specs.native_interp.declared.addresses.TheConstants as address;

use crate::pieces::{clear_condition, set_condition};
use sim_rows::labels::CTRUE;
use sim_rows::processor::{Machine, Steps};
use std::sync::ledger::Ledger;

/// Sets the condition or clears it, as the comparison gives.
pub fn end_comparison<L: Ledger>(machine: &mut Machine, steps: &mut Steps<L>)
    requires { IsDecided machine.old }
    ensures { Exits machine.old machine.new steps.old steps.new
        (ending (machine.old.cpu.pc == address.CTRUE) (view machine.old)) }
{
    if machine.pc() == CTRUE {
        set_condition(machine, steps);
    } else {
        clear_condition(machine, steps);
    }
}
