//! PUSH: a byte goes on the data stack.

ghost use Rattle.std.specs.Prelude.{◌≡◌};
ghost use Rattle.sim_rows.specs.Prelude.{Exits, IsAt, view};
ghost use Rattle.sim_rows.specs.native_interp.declared.addresses.TheConstants as address;
ghost use Rattle.sim_stack.specs.Rows as row;

use crate::pieces::push_pointer;
use sim_rows::finish_row_routine;
use sim_rows::labels::GSTOP;
use sim_rows::processor::{Machine, Steps};
use std::sync::ledger::Ledger;

/// Runs PUSH from its row to the end of the step.
pub fn run_push<L: Ledger>(machine: &mut Machine, steps: &mut Steps<L>)
    requires is_at { IsAt machine.old address.PUSHV }
    requires byte { (view machine.old).r.r3 ≡ 1 }
    ensures { Exits machine.old machine.new steps.old steps.new (row.pushed (view machine.old)) }
{
    push_pointer(machine, steps);
    if machine.pc() == GSTOP {
        return;
    }
    finish_row_routine(machine, steps);
}
