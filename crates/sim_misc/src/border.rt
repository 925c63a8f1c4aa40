//! BACK, from its dispatch to the end of the step.

ghost use Rattle.std.specs.Prelude.{◌≡◌, Some};
ghost use Rattle.sim_rows.specs.Prelude.{BACK, Dispatched, operation_entry, operation_in_view, IsAt};
ghost use Rattle.sim_rows.specs.Prelude.{from_dispatch, state_at_dispatch, Turned, view};
ghost use Rattle.sim_rows.specs.gpl_defs.declared.instruction.GplOperation.TheVariants.{Byte};

use crate::pieces::set_border;
use sim_rows::Turn;
use sim_rows::processor::{Machine, Steps};
use std::sync::ledger::Ledger;

/// Runs BACK from its dispatch to the end of the step: the border's colour is set.
pub(crate) fn run_border<L: Ledger>(machine: &mut Machine, steps: &mut Steps<L>) -> Turn
    requires is_at { IsAt machine.old (operation_entry (operation_in_view (view machine.old))) }
    requires dispatched { let v = view machine.old in Dispatched (state_at_dispatch v) v }
    requires border { operation_in_view (view machine.old) ≡ Some (Byte BACK) }
    ensures { let s = state_at_dispatch (view machine.old) in
        Turned s machine.old machine.new (from_dispatch steps.old steps.new) result }
{
    set_border(machine, steps);
    Turn::Stepped
}
