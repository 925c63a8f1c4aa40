//! RAND, from its dispatch to the end of the step.

ghost use Rattle.std.specs.Prelude.{◌≡◌, Some};
ghost use Rattle.sim_rows.specs.Prelude.{Dispatched, operation_entry, operation_in_view, RAND, IsAt};
ghost use Rattle.sim_rows.specs.Prelude.{from_dispatch, state_at_dispatch, Turned, view};
ghost use Rattle.sim_rows.specs.gpl_defs.declared.instruction.GplOperation.TheVariants.{Byte};

use crate::pieces::{draw_number, draw_seed};
use sim_rows::Turn;
use sim_rows::processor::{Machine, Steps};
use std::sync::ledger::Ledger;

/// Runs RAND from its dispatch to the end of the step: the next seed is made, and a number of it.
pub(crate) fn run_random<L: Ledger>(machine: &mut Machine, steps: &mut Steps<L>) -> Turn
    requires is_at { IsAt machine.old (operation_entry (operation_in_view (view machine.old))) }
    requires dispatched { let v = view machine.old in Dispatched (state_at_dispatch v) v }
    requires random { operation_in_view (view machine.old) ≡ Some (Byte RAND) }
    ensures { let s = state_at_dispatch (view machine.old) in
        Turned s machine.old machine.new (from_dispatch steps.old steps.new) result }
{
    draw_seed(machine, steps);
    draw_number(machine, steps);
    Turn::Stepped
}
