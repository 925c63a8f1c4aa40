//! ALL, from its dispatch to the end of the step.

ghost use Rattle.std.specs.Prelude.{◌≡◌, Some};
ghost use Rattle.sim_rows.specs.Prelude.{ALL, Dispatched, operation_entry, operation_in_view, IsAt};
ghost use Rattle.sim_rows.specs.Prelude.{from_dispatch, state_at_dispatch, Turned, view};
ghost use Rattle.sim_rows.specs.gpl_defs.declared.instruction.GplOperation.TheVariants.{Byte};

use crate::pieces::{begin_fill, fill_byte};
use sim_rows::Turn;
use sim_rows::processor::{Machine, Steps};
use std::sync::ledger::Ledger;

/// How many bytes the screen has. They are the first of video memory.
const SCREEN: u16 = 768;

/// Runs ALL from its dispatch to the end of the step: the byte fills the screen.
pub(crate) fn run_fill<L: Ledger>(machine: &mut Machine, steps: &mut Steps<L>) -> Turn
    requires is_at { IsAt machine.old (operation_entry (operation_in_view (view machine.old))) }
    requires dispatched { let v = view machine.old in Dispatched (state_at_dispatch v) v }
    requires fill { operation_in_view (view machine.old) ≡ Some (Byte ALL) }
    ensures { let s = state_at_dispatch (view machine.old) in
        Turned s machine.old machine.new (from_dispatch steps.old steps.new) result }
{
    begin_fill(machine, steps);
    for _ in 0..SCREEN {
        fill_byte(machine, steps);
    }
    Turn::Stepped
}
